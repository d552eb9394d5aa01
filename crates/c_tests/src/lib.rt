// Entries for the test drivers of tests/, which no product crate carries: the float helpers under names for C, and a banded solve.
#![tactic(auto)]

ghost use Rattle.std.specs.Prelude.{◌≡◌};
ghost use Rattle.float64.specs.Helpers.{abs_of, is_finite, max_of, min_of, clamp_of};
ghost use Rattle.square_root.specs.Sqrt.{sqrt_of};
ghost use Rattle.c_tests.specs.Answered.{Answered};

#[unsafe(no_mangle)]
pub extern "C" fn float64_sqrt(x: f64) -> f64
    ensures { result ≡ sqrt_of x }
{
    square_root::sqrt(x)
}

#[unsafe(no_mangle)]
pub extern "C" fn float64_is_finite(x: f64) -> bool
    ensures { result ≡ is_finite x }
{
    float64::is_finite(x)
}

#[unsafe(no_mangle)]
pub extern "C" fn float64_abs(x: f64) -> f64
    ensures { result ≡ abs_of x }
{
    float64::abs(x)
}

#[unsafe(no_mangle)]
pub extern "C" fn float64_max(a: f64, b: f64) -> f64
    ensures { result ≡ max_of a b }
{
    float64::max(a, b)
}

#[unsafe(no_mangle)]
pub extern "C" fn float64_min(a: f64, b: f64) -> f64
    ensures { result ≡ min_of a b }
{
    float64::min(a, b)
}

#[unsafe(no_mangle)]
pub extern "C" fn float64_clamp(z: f64, lam: f64) -> f64
    ensures { result ≡ clamp_of z lam }
{
    float64::clamp(z, lam)
}

// Factors and solves the system that s begins with.
#[unsafe(no_mangle)]
pub extern "C" fn substitution_factor_solve(s: &mut [f64], k: usize, m: usize) -> u32
    ensures { Answered k m s.old s.new result }
{
    if k < 1 {
        return 2;
    }
    if 2 < k {
        return 2;
    }
    if m < 1 {
        return 2;
    }
    if 65536 < m {
        return 2;
    }
    if s.len() < m * (k + 1) + m {
        return 2;
    }
    if substitution::factor_solve_at(s, 0, k, m) {
        return 0;
    }
    1
}
