// The lines of a listing. Each function writes a line from a place on and answers the place past it.
#![tactic(auto)]

ghost use Rattle.std.specs.Prelude.{◌+◌, ◌≤◌, length};
ghost use Rattle.fields.specs.Puts.{Puts};
ghost use Rattle.lines.specs.Lines.{three, numbers_line, hour_line, knot_line, refused_line};

// Three fields of the first line of a fit.
pub fn put_three(out: &mut [u8], at: usize, a: u64, b: u64, c: u64) -> usize
    requires { at + 63 ≤ length out.old }
    ensures { Puts out.old at (three a b c) out.new result 63 }
{
    let a1 = fields::put_field(out, at, a);
    let a2 = fields::put_field(out, a1, b);
    fields::put_field(out, a2, c)
}

// The line of a fit's doubles.
pub fn put_numbers_line(out: &mut [u8], at: usize, a: f64, b: f64, c: f64) -> usize
    requires { at + 51 ≤ length out.old }
    ensures { Puts out.old at (numbers_line a b c) out.new result 51 }
{
    let a1 = fields::put_hex(out, at, a);
    let a2 = fields::put_hex_field(out, a1, b);
    let a3 = fields::put_hex_field(out, a2, c);
    fields::put_byte(out, a3, 10)
}

// The line of an hour.
pub fn put_hour_line(out: &mut [u8], at: usize, i: u64, t: f64, c: f64) -> usize
    requires { at + 57 ≤ length out.old }
    ensures { Puts out.old at (hour_line i t c) out.new result 57 }
{
    let a1 = fields::put_byte(out, at, 104);
    let a2 = fields::put_field(out, a1, i);
    let a3 = fields::put_hex_field(out, a2, t);
    let a4 = fields::put_hex_field(out, a3, c);
    fields::put_byte(out, a4, 10)
}

// The line of a knot.
pub fn put_knot_line(out: &mut [u8], at: usize, i: u64) -> usize
    requires { at + 26 ≤ length out.old }
    ensures { Puts out.old at (knot_line i) out.new result 26 }
{
    let a1 = fields::put_all(out, at, b"knot");
    let a2 = fields::put_field(out, a1, i);
    fields::put_byte(out, a2, 10)
}

// The line of a refusal.
pub fn put_refused_line(out: &mut [u8], at: usize, number: u64) -> usize
    requires { at + 29 ≤ length out.old }
    ensures { Puts out.old at (refused_line number) out.new result 29 }
{
    let a1 = fields::put_all(out, at, b"refused");
    let a2 = fields::put_field(out, a1, number);
    fields::put_byte(out, a2, 10)
}
