// The compressed system, over the free places.
ghost use Rattle.std.specs.Prelude.{◌≡◌, ◌≤◌, ◌-◌, ◌+◌, ◌*◌, length, get_or};
ghost use Rattle.vectors.specs.Vec.{list};
ghost use Rattle.vectors.specs.Parts.{Kept, part, Written};
ghost use Rattle.banded.specs.Rows.{placed};
ghost use Rattle.banded.specs.Layout.{Laid};
ghost use Rattle.active_set.specs.ActiveSet.{compressed, less_held, compressed_rhs_at};
ghost use Rattle.active_set.specs.Marks.{held_by, Cell, Bands, Side, Freed, Settled};

use crate::Hold;

// Place c of row p of the system.
fn band_at(free: &[u32], g: [f64; 3], k: usize, p: usize, c: usize) -> f64
    requires { Cell k p c (length free.now) }
    ensures { result ≡ placed k (compressed k g free.now) p c }
{
    if p + c < k {
        return 0.0;
    }
    let i = free[p] as usize;
    let j = free[p + c - k] as usize;
    let d = i.saturating_sub(j);
    if d <= k { g[d] } else { 0.0 }
}

// Row p of it, in its place of s.
fn fill_row(s: &mut [f64], free: &[u32], g: [f64; 3], k: usize, p: usize)
    requires { Bands k (p + 1) (length free.now) (length s.old) }
    ensures { Written (p * (k + 1)) (p * (k + 1) + (k + 1)) (λ j. placed k (compressed k g free.now) p (j - p * (k + 1))) s.old s.new }
{
    let a = p * (k + 1);
    for c in 0..=k {
        s[a + c] = band_at(free, g, k, p, c);
    }
}

// Its q rows in the first places of s.
fn fill_bands(s: &mut [f64], free: &[u32], g: [f64; 3], k: usize, q: usize)
    requires { Bands k q (length free.now) (length s.old) }
    ensures { Laid k q (compressed k g free.now) s.old s.new }
{
    for p in 0..q {
        fill_row(s, free, g, k, p);
    }
}

// v less what place j, held as h says, takes from the right side at place i.
fn less_held(v: f64, g: [f64; 3], lam: f64, i: usize, j: usize, h: Hold) -> f64
    requires { (i ≤ j + 2) × (j ≤ i + 2) }
    ensures { result ≡ less_held lam g i j h v }
{
    if h.is_free() {
        return v;
    }
    v - g[i.abs_diff(j)] * h.held_value(lam)
}

// The right side at the free place i of m.
fn right_at(
    marks: &[u32],
    dy: &[f64],
    lam: f64,
    g: [f64; 3],
    k: usize,
    n: usize,
    m: usize,
    i: usize,
) -> f64
    requires { Side k n m i (length marks.now) (length dy.now) }
    ensures { result ≡ compressed_rhs_at k g dy.now lam (held_by n marks.now) m i }
{
    let mut v = dy[i];
    for j in i.saturating_sub(k)..(i + k + 1).min(m) {
        v = less_held(v, g, lam, i, j, marks[n + j].into());
    }
    v
}

// The right side at each of the q free places, from place b of s on.
fn fill_right(
    s: &mut [f64],
    b: usize,
    marks: &[u32],
    dy: &[f64],
    lam: f64,
    g: [f64; 3],
    k: usize,
    n: usize,
    q: usize,
)
    requires { Freed k n marks.now (length dy.now) q × (b + q ≤ length s.old) }
    ensures { (part b q s.new ≡ list q (λ r. compressed_rhs_at k g dy.now lam (held_by n marks.now) (n - k) (get_or marks.now r 0)))
        × Kept b q s.old s.new }
{
    for p in 0..q {
        s[b + p] = right_at(marks, dy, lam, g, k, n, n - k, marks[p] as usize);
    }
}

// The system in the first places of s, solved: the solution stands after its rows. Whether every pivot was good.
pub fn settle(
    s: &mut [f64],
    marks: &[u32],
    dy: &[f64],
    lam: f64,
    k: usize,
    n: usize,
    q: usize,
) -> bool
    requires { Freed k n marks.now (length dy.now) q × (q * (k + 1) + q ≤ length s.old) }
    ensures { Settled k n dy.now lam marks.now q s.old s.new result }
{
    if q == 0 {
        return true;
    }
    let g = differences::gram_offsets(k);
    let b = q * (k + 1);
    fill_bands(s, marks, g, k, q);
    fill_right(s, b, marks, dy, lam, g, k, n, q);
    substitution::factor_solve_at(s, 0, k, q)
}
