// Numbers as bytes: each function writes from a place on and answers the place past it.
#![tactic(auto)]

ghost use Rattle.std.specs.Prelude.{[], ◌∷◌, ◌+◌, ◌≤◌, ◌<◌, length};
ghost use Rattle.fields.specs.Fields.{decimal, hex_of, field, hex_field};
ghost use Rattle.fields.specs.Puts.{Puts};

// One byte.
pub fn put_byte(out: &mut [u8], at: usize, b: u8) -> usize
    requires { at < length out.old }
    ensures { Puts out.old at (b ∷ []) out.new result 1 }
{
    out[at] = b;
    at + 1
}

// A run of bytes.
pub fn put_all(out: &mut [u8], at: usize, src: &[u8]) -> usize
    requires { at + length src.now ≤ length out.old }
    ensures { Puts out.old at src.now out.new result (length src.now) }
{
    let end = at + src.len();
    out[at..end].copy_from_slice(src);
    end
}

// A whole number in decimal.
fn put_decimal(out: &mut [u8], at: usize, n: u64) -> usize
    requires { at + 20 ≤ length out.old }
    ensures { Puts out.old at (decimal n) out.new result 20 }
{
    let mut text = [0u8; 20];
    let k = io::decimal(n, &mut text);
    put_all(out, at, &text[..k])
}

// A double as sixteen hexadecimal digits.
pub fn put_hex(out: &mut [u8], at: usize, x: f64) -> usize
    requires { at + 16 ≤ length out.old }
    ensures { Puts out.old at (hex_of x) out.new result 16 }
{
    let mut text = [0u8; 16];
    let k = io::hex(float64::pattern(x), 16, &mut text);
    put_all(out, at, &text[..k])
}

// A space and then the number; a space and then the double.
#[tactic(auto, using(crate::proofs::Writers::puts_then), unfolding(crate::specs::Fields::field))]
pub fn put_field(out: &mut [u8], at: usize, n: u64) -> usize
    requires { at + 21 ≤ length out.old }
    ensures { Puts out.old at (field n) out.new result 21 }
{
    let a = put_byte(out, at, 32);
    put_decimal(out, a, n)
}

#[tactic(auto, using(crate::proofs::Writers::puts_then), unfolding(crate::specs::Fields::hex_field))]
pub fn put_hex_field(out: &mut [u8], at: usize, x: f64) -> usize
    requires { at + 17 ≤ length out.old }
    ensures { Puts out.old at (hex_field x) out.new result 17 }
{
    let a = put_byte(out, at, 32);
    put_hex(out, a, x)
}
