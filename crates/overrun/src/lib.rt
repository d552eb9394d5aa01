// Overruns counted in frames: the milliseconds that so many frames last at a rate.
#![tactic(auto)]

ghost use Rattle.std.specs.Prelude.{◌≡◌, ◌+◌, ◌*◌, ◌^◌, ◌≤◌, ◌<◌, length, take, drop};
ghost use Rattle.overrun.specs.Fractions.{gcd};
ghost use Rattle.overrun.specs.Overrun.{frames_in, overrun};
ghost use Rattle.overrun.specs.Inner.{quotient_of};

// The greatest common divisor, by Euclid's method: the remainder falls.
fn gcd(a: u64, b: u64) -> u64
    ensures { result ≡ gcd a b }
{
    if b == 0 { a } else { gcd(b, a % b) }
}

// The double nearest to a · b / c, or NaN where the upper number of the reduced fraction is 2^53 or more. Both factors are reduced before they are multiplied, so nothing wraps.
fn quotient(a: u64, b: u64, c: u64) -> f64
    requires { (0 < b) × (0 < c) × (c < 2 ^ 53) }
    ensures { result ≡ quotient_of (a * b) c }
{
    let g = gcd(a, c);
    let rest = c / g;
    let h = gcd(b, rest);
    let left = a / g;
    let right = b / h;
    if left > 9007199254740991 / right {
        f64::NAN
    } else {
        (left * right) as f64 / (rest / h) as f64
    }
}

// The milliseconds of an hour in frames whose body starts there, or NaN where question 22 refuses its rate.
pub fn milliseconds(s: &[u8], at: usize) -> f64
    requires { at + 12 ≤ length s.now }
    ensures { result ≡ overrun (frames_in (take 12 (drop at s.now))) }
{
    let count = framing::number::<4>(s, at);
    let numerator = framing::number::<4>(s, at + 4);
    let denominator = framing::number::<4>(s, at + 8);
    if numerator == 0 || denominator == 0 {
        return f64::NAN;
    }
    if count < 2147483648 {
        quotient(1000 * count, denominator, numerator)
    } else {
        -quotient(1000 * (4294967296 - count), denominator, numerator)
    }
}
