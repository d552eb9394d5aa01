// Rows of k + 1 numbers, flat in a run with the right side after them: a place of a row, a row stored, a row of the L D L' factor in its place, a place of the right side carried forward.
#![tactic(auto)]

ghost use Rattle.std.specs.Prelude.{◌≡◌, [], ◌∷◌, ◌≤◌, ◌<◌, ◌+◌, ◌*◌, length};
ghost use Rattle.vectors.specs.Vec.{at};
ghost use Rattle.banded.specs.Rows.{placed, entry};
ghost use Rattle.banded.specs.Solve.{forward_at};
ghost use Rattle.banded.specs.Run.{of_run, Factored, HasRow, Stored};

// Place c of row r of rows of w numbers.
pub fn get(s: &[f64], w: usize, r: usize, c: usize) -> f64
    requires { r * w + c < length s.now }
    ensures { result ≡ at s.now (r * w + c) }
{
    s[r * w + c]
}

// Place c of row r of the factor, from the matrix at that place and the factor before it.
fn factor_entry(s: &[f64], k: usize, r: usize, c: usize) -> f64
    requires { ((r + 1) * (k + 1) ≤ length s.now) × (c ≤ k) }
    ensures { result ≡ placed k (entry k (of_run k s.now) (of_run k s.now)) r c }
{
    if r + c < k {
        return 0.0;
    }
    let w = k + 1;
    let mut v = get(s, w, r, c);
    for t in k.saturating_sub(r)..c {
        let a = get(s, w, r, t);
        let b = get(s, w, r + c - k, t + k - c);
        let d = get(s, w, r + t - k, k);
        v = v - a * b * d;
    }
    if c < k {
        let d = get(s, w, r + c - k, k);
        return v / d;
    }
    v
}

// Row r of the factor, in its place.
pub fn factor_row(s: &mut [f64], k: usize, r: usize)
    requires { (r + 1) * (k + 1) ≤ length s.old }
    ensures { Factored k r (k + 1) s.old s.new }
{
    let w = k + 1;
    let b = r * w;
    for c in 0..w {
        s[b + c] = factor_entry(s, k, r, c);
    }
}

// Place i of the right side, carried forward.
pub fn forward_at(s: &[f64], k: usize, b: usize, i: usize) -> f64
    requires { ((i + 1) * (k + 1) ≤ length s.now) × (b + i < length s.now) }
    ensures { result ≡ forward_at k (of_run k s.now) (λ j. at s.now (b + j)) (at s.now (b + i)) i }
{
    let mut v = s[b + i];
    for t in k.saturating_sub(i)..k {
        let a = get(s, k + 1, i, t);
        v = v - a * s[b + (i + t - k)];
    }
    v
}

// Row r of m rows of 2 places, and x in place r of the right side.
pub fn store1(s: &mut [f64], m: usize, r: usize, a: f64, b: f64, x: f64)
    requires { HasRow 1 m r (length s.old) }
    ensures { Stored 1 m r (at (a ∷ b ∷ [])) x s.old s.new }
{
    let p = r * 2;
    let q = m * 2 + r;
    s[p] = a;
    s[p + 1] = b;
    s[q] = x;
}

// Row r of m rows of 3 places, and x in place r of the right side.
pub fn store2(s: &mut [f64], m: usize, r: usize, a: f64, b: f64, c: f64, x: f64)
    requires { HasRow 2 m r (length s.old) }
    ensures { Stored 2 m r (at (a ∷ b ∷ c ∷ [])) x s.old s.new }
{
    let p = r * 3;
    let q = m * 3 + r;
    s[p] = a;
    s[p + 1] = b;
    s[p + 2] = c;
    s[q] = x;
}
