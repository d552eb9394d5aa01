// The listing of a fit, or of a refusal, as bytes at the start of a lent array, which always suffices.
// Inside, each function writes from a place on and answers the place past it.
#![tactic(auto)]

ghost use Rattle.std.specs.Prelude.{◌≡◌, ◌+◌, ◌*◌, ◌≤◌, ◌<◌, length, get_or};
ghost use Rattle.vectors.specs.Parts.{Wrote};
ghost use Rattle.fields.specs.Puts.{Puts};
ghost use Rattle.lines.specs.Lines.{refused_line};
ghost use Rattle.listing.specs.Shown.{shown_line, first_hours, first_knots, Below, shown_listing};

use search::Reason;

// What is shown of a fit besides its trend, its cycle and its knots: n hours, and so many knots.
#[derive(Clone, Copy)]
pub struct Shown {
    pub n: usize,
    pub order: u32,
    pub penalty: u32,
    pub n_iter: u64,
    pub improvements: u64,
    pub converged: bool,
    pub reason: Reason,
    pub lam_max: f64,
    pub gap: f64,
    pub objective: f64,
    pub knots: usize,
}

// The lines of the first n hours.
fn put_hours(
    out: &mut [u8],
    at: usize,
    positions: &[u32],
    trend: &[f64],
    cycle: &[f64],
    n: usize,
) -> usize
    requires n_in_bounds { (n ≤ length positions.now) × (n ≤ length trend.now) × (n ≤ length cycle.now) }
    requires n_in_bounds_2 { at + 57 * n ≤ length out.old }
    ensures { Puts out.old at (first_hours positions.now trend.now cycle.now n) out.new result (57 * n) }
{
    let mut pos = at;
    for i in 0..n {
        let p = u64::from(positions[i]);
        pos = lines::put_hour_line(out, pos, p, trend[i], cycle[i]);
    }
    pos
}

// The position of a knot.
fn knot_position(positions: &[u32], knot: u32) -> u64
    requires { knot < length positions.now }
    ensures { result ≡ get_or positions.now knot 0 }
{
    u64::from(positions[knot as usize])
}

// The lines of the first n knots.
fn put_knots(out: &mut [u8], at: usize, positions: &[u32], knots: &[u32], n: usize) -> usize
    requires n_in_bounds { (n ≤ length knots.now) × Below knots.now n (length positions.now) }
    requires n_in_bounds_2 { at + 26 * n ≤ length out.old }
    ensures { Puts out.old at (first_knots positions.now knots.now n) out.new result (26 * n) }
{
    let mut pos = at;
    for &knot in &knots[..n] {
        pos = lines::put_knot_line(out, pos, knot_position(positions, knot));
    }
    pos
}

// The first line of a fit.
fn put_fit_line(out: &mut [u8], at: usize, f: Shown) -> usize
    requires { at + 151 ≤ length out.old }
    ensures { Puts out.old at (shown_line f) out.new result 151 }
{
    let a1 = fields::put_all(out, at, b"fit");
    let a2 = lines::put_three(
        out,
        a1,
        f.n as u64,
        u64::from(f.order),
        u64::from(f.penalty),
    );
    let a3 = lines::put_three(out, a2, f.n_iter, f.improvements, u64::from(f.converged));
    let a4 = fields::put_field(out, a3, u64::from(f.reason));
    fields::put_byte(out, a4, 10)
}

// The whole listing of a fit, at the start of out: answers how many bytes it has. Each hour has its position.
pub fn put_listing(
    out: &mut [u8; 16384],
    f: Shown,
    positions: &[u32],
    trend: &[f64; 168],
    cycle: &[f64; 168],
    knots: &[u32; 168],
) -> usize
    requires n_bound { (f.n ≤ 168) × (f.knots ≤ 168) }
    requires n_in_bounds { (f.n ≤ length positions.now) × Below knots.now f.knots (length positions.now) }
    ensures { Wrote out.old 0 (shown_listing f positions.now trend.now cycle.now knots.now) out.new result }
{
    let n = f.n;
    let k = f.knots;
    let a1 = put_fit_line(out, 0, f);
    let a2 = lines::put_numbers_line(out, a1, f.lam_max, f.gap, f.objective);
    let a3 = put_hours(out, a2, positions, trend, cycle, n);
    put_knots(out, a3, positions, knots, k)
}

// The line of a refusal, at the start of out: answers how many bytes it has.
pub fn put_refused(out: &mut [u8; 16384], number: u32) -> usize
    ensures { Wrote out.old 0 (refused_line number) out.new result }
{
    lines::put_refused_line(out, 0, u64::from(number))
}
