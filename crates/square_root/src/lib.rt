// The square root, worked out on the bit pattern and equal to its definition for every double.
#![tactic(auto)]

ghost use Rattle.std.specs.Prelude.{◌≡◌, ◌+◌, ◌*◌, ◌^◌, ◌<◌, ◌≤◌};
ghost use Rattle.std.specs.Float.{binary64};
ghost use Rattle.std.specs.Float.Ieee.{of_bits};
ghost use Rattle.square_root.specs.Sqrt.{sqrt_of, nearest_root, isqrt};
ghost use Rattle.square_root.specs.Parts.{rounded_root, Bits, Lifted, Scaled};

// How many places the digits t of a subnormal go up until they are 53. s counts them and never passes 64: proofs/Counter.antt.
fn places(t: u64) -> u64
    requires t_nonzero { 0 < t }
    requires t_bound { t < 2 ^ 53 }
    ensures { Lifted t result }
{
    let mut s: u8 = 0;
    while t << s < 0x10_0000_0000_0000 {
        s += 1;
    }
    s as u64
}

// The whole part of the root of h, by its 14 digits, the highest first. j counts those to come and never passes 64: proofs/Counter.antt.
fn short_root(h: u64) -> u64
    requires { h < 2 ^ 28 }
    ensures { result ≡ isqrt h }
{
    let mut root: u64 = 0;
    for j in (0..14u8).rev() {
        let t = root + (1 << j);
        if t * t <= h {
            root = t;
        }
    }
    root
}

// The whole part of the root of h: a step of Newton's method from the 14 leading digits is at most 1 too high.
fn whole_root(h: u64) -> u64
    requires bound { 2 ^ 52 ≤ h }
    requires h_bound { h < 2 ^ 54 }
    ensures { result ≡ isqrt h }
{
    let x = short_root(h / 0x400_0000) * 0x2000;
    let y = (x + h / x) / 2;
    if h < y * y { y - 1 } else { y }
}

// The whole number nearest to the root of w * 2 ^ 52, which is root * root + v - q * q.
fn rooted(w: u64) -> u64
    requires bound { 2 ^ 52 ≤ w }
    requires w_bound { w + 2 ≤ 2 ^ 54 }
    ensures { result ≡ rounded_root (w * 2 ^ 52) }
{
    let s = whole_root(w);
    let t = (w - s * s) * 0x400_0000;
    let q = t / (s * 2);
    let v = t % (s * 2) * 0x400_0000;
    let root = s * 0x400_0000 + q;
    if root + q * q < v { root + 1 } else { root }
}

// The bits of the double nearest to the root of m * 2 ^ e.
fn root_bits(m: u64, e: u64) -> u64
    requires { Scaled m e }
    ensures { Bits (nearest_root (m * 2 ^ e)) result }
{
    if e % 2 == 0 {
        (e / 2 - 26) * 0x10_0000_0000_0000 + rooted(m)
    } else {
        (e / 2 - 26) * 0x10_0000_0000_0000 + rooted(m * 2)
    }
}

// The bits of the root of the double above zero that has the bits b.
fn positive_bits(b: u64) -> u64
    requires b_nonzero { 0 < b }
    requires b_bound { b < 2047 * 2 ^ 52 }
    ensures { Bits (sqrt_of (of_bits binary64 b)) result }
{
    let t = b % 0x10_0000_0000_0000;
    let x = b / 0x10_0000_0000_0000;
    if x == 0 {
        let s = places(t);
        root_bits(t << s, 1074 - s)
    } else {
        root_bits(t + 0x10_0000_0000_0000, x + 1073)
    }
}

pub fn sqrt(x: f64) -> f64
    ensures { result ≡ sqrt_of x }
{
    if x.is_nan() {
        return x;
    }
    let b = x.to_bits();
    if b == 0 {
        return x;
    }
    if b == 0x8000_0000_0000_0000 {
        return x;
    }
    if b > 0x8000_0000_0000_0000 {
        return f64::NAN;
    }
    if b >= 0x7ff0_0000_0000_0000 {
        return x;
    }
    f64::from_bits(positive_bits(b))
}
