// The L D L' factor of a banded symmetric matrix, in place, a row at a time, with the right side carried forward beside it.
#![tactic(auto)]

ghost use Rattle.std.specs.Prelude.{◌≡◌, ◌≤◌, ◌+◌, ◌*◌, length};
ghost use Rattle.banded.specs.Rows.{good};
ghost use Rattle.banded.specs.Run.{HasRow, Eliminated};
ghost use Rattle.elimination.specs.Decomposed.{Decomposed};
ghost use Rattle.elimination.specs.Next.{Next1Made, Next2Made};

// A row of the factor of order 1, and its place of the right side carried forward: left of the diagonal, the pivot, the right side.
#[derive(Clone, Copy)]
pub struct Row1 {
    pub left: f64,
    pub pivot: f64,
    pub side: f64,
}

// The same of order 2: far is two places left of the diagonal.
#[derive(Clone, Copy)]
pub struct Row2 {
    pub far: f64,
    pub left: f64,
    pub pivot: f64,
    pub side: f64,
}

// Whether a pivot is above 0 and at most the largest double.
pub fn is_good(x: f64) -> bool
    ensures { result ≡ good x }
{
    0.0 < x && x <= 1.7976931348623157e308
}

// A row of order 1 with a left of the diagonal, b on it and right side x; the row above has pivot d and right side u.
pub fn next1(a: f64, b: f64, x: f64, d: f64, u: f64) -> Row1
    ensures { Next1Made a b x d u result }
{
    let left = a / d;
    let pivot = b - left * left * d;
    let side = x - left * u;
    Row1 { left, pivot, side }
}

// A row of order 2 with a and b left of the diagonal, c on it and right side x; the row above has l left of its pivot d1 and right side u1, the one above that pivot d2 and right side u2.
pub fn next2(a: f64, b: f64, c: f64, x: f64, d2: f64, l: f64, d1: f64, u2: f64, u1: f64) -> Row2
    ensures { Next2Made a b c x d2 l d1 u2 u1 result }
{
    let far = a / d2;
    let left = (b - far * l * d2) / d1;
    let pivot = c - far * far * d2 - left * left * d1;
    let side = x - far * u2 - left * u1;
    Row2 {
        far,
        left,
        pivot,
        side,
    }
}

// Row r at any order.
fn eliminate_any(s: &mut [f64], k: usize, m: usize, r: usize) -> bool
    requires { HasRow k m r (length s.old) }
    ensures { Eliminated k m r s.old s.new result }
{
    banded::factor_row(s, k, r);
    let d = banded::get(s, k + 1, r, k);
    let b = m * (k + 1);
    let x = banded::forward_at(s, k, b, r);
    s[b + r] = x;
    is_good(d)
}

// Row r of rows of 2 places, r at least 1.
fn eliminate1(s: &mut [f64], m: usize, r: usize) -> bool
    requires { (1 ≤ r) × HasRow 1 m r (length s.old) }
    ensures { Eliminated 1 m r s.old s.new result }
{
    let p = r * 2;
    let q = m * 2 + r;
    let w = next1(s[p], s[p + 1], s[q], s[p - 1], s[q - 1]);
    banded::store1(s, m, r, w.left, w.pivot, w.side);
    is_good(w.pivot)
}

// Row r of rows of 3 places, r at least 2.
fn eliminate2(s: &mut [f64], m: usize, r: usize) -> bool
    requires { (2 ≤ r) × HasRow 2 m r (length s.old) }
    ensures { Eliminated 2 m r s.old s.new result }
{
    let p = r * 3;
    let q = m * 3 + r;
    let w = next2(
        s[p],
        s[p + 1],
        s[p + 2],
        s[q],
        s[p - 4],
        s[p - 2],
        s[p - 1],
        s[q - 2],
        s[q - 1],
    );
    banded::store2(s, m, r, w.far, w.left, w.pivot, w.side);
    is_good(w.pivot)
}

// Row r of the factor, in its place, and place r of the right side carried forward; whether the pivot is good.
pub fn eliminate(s: &mut [f64], k: usize, m: usize, r: usize) -> bool
    requires { HasRow k m r (length s.old) }
    ensures { Eliminated k m r s.old s.new result }
{
    if r < k {
        return eliminate_any(s, k, m, r);
    }
    if k == 1 {
        return eliminate1(s, m, r);
    }
    if k == 2 {
        return eliminate2(s, m, r);
    }
    eliminate_any(s, k, m, r)
}

// The factor of the matrix that s begins with, in its place, and the right side after it carried forward. A bad pivot ends it.
pub fn factor(s: &mut [f64], k: usize, m: usize) -> bool
    requires { m * (k + 1) + m ≤ length s.old }
    ensures { Decomposed k m s.old s.new result }
{
    for r in 0..m {
        if !eliminate(s, k, m, r) {
            return false;
        }
    }
    true
}
