// Helpers on doubles, each equal to its definition for every double: abs, max, min, clamp, is_finite; a double's bits and back.
#![tactic(auto)]

ghost use Rattle.std.specs.Prelude.{◌≡◌};
ghost use Rattle.std.specs.Float.{binary64};
ghost use Rattle.std.specs.Float.Ieee.{of_bits, to_bits};
ghost use Rattle.float64.specs.Helpers.{abs_of, is_finite, max_of, min_of, clamp_of};

#[tactic(auto, using(crate::proofs::Helpers::finite_is))]
pub fn is_finite(x: f64) -> bool
    ensures { result ≡ is_finite x }
{
    x.is_finite()
}

pub fn abs(x: f64) -> f64
    ensures { result ≡ abs_of x }
{
    let n = 0.0 - x;
    if n < x { x } else { n }
}

// A NaN returns early: one `if .. else if` makes a loop of these slower.
#[tactic(auto, unfolding(crate::specs::Helpers::max_of))]
pub fn max(a: f64, b: f64) -> f64
    ensures { result ≡ max_of a b }
{
    if a.is_nan() {
        return b;
    }
    if a < b { b } else { a }
}

#[tactic(auto, unfolding(crate::specs::Helpers::min_of))]
pub fn min(a: f64, b: f64) -> f64
    ensures { result ≡ min_of a b }
{
    if a.is_nan() {
        return b;
    }
    if b < a { b } else { a }
}

#[tactic(auto, unfolding(crate::specs::Helpers::clamp_of))]
pub fn clamp(z: f64, lam: f64) -> f64
    ensures { result ≡ clamp_of z lam }
{
    if z < -lam {
        return -lam;
    }
    if z > lam { lam } else { z }
}

// The double that a bit pattern spells; each NaN's pattern is the NaN.
#[tactic(auto, using(std::proofs::lemmas::Float::not_nan_f64_bits, crate::proofs::Bits::nan_spelt))]
pub fn double(b: u64) -> f64
    ensures { result ≡ of_bits binary64 b }
{
    if b % 0x8000_0000_0000_0000 > 0x7ff0_0000_0000_0000 {
        f64::NAN
    } else {
        f64::from_bits(b)
    }
}

// The bits of a double; a NaN's are 7ff8000000000000.
#[tactic(auto, using(crate::proofs::Bits::nan_shown))]
pub fn pattern(x: f64) -> u64
    ensures { result ≡ to_bits binary64 x }
{
    if x.is_nan() {
        0x7ff8_0000_0000_0000
    } else {
        x.to_bits()
    }
}
