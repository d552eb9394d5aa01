// The rows of I + lam D'D.
#![tactic(auto)]

ghost use Rattle.std.specs.Prelude.{◌≡◌, List, ◌≤◌, ◌-◌, ◌+◌, ◌*◌, length, Float};
ghost use Rattle.vectors.specs.Parts.{Written};
ghost use Rattle.differences.specs.Diff.{stencil};
ghost use Rattle.differences.specs.Series.{Series};
ghost use Rattle.banded.specs.Rows.{placed};
ghost use Rattle.banded.specs.Layout.{Laid};
ghost use Rattle.ridge.specs.Layout.{Row, Rows, Repeated};
ghost use Rattle.ridge.specs.Ridge.{identity_at, ridge};

// I at row i and column j.
fn identity_at(i: usize, j: usize) -> f64
    ensures { result ≡ identity_at i j }
{
    if i == j { 1.0 } else { 0.0 }
}

// Place p of row i, for a series of n.
fn ridge_at(c: [f64; 3], lam: f64, k: usize, n: usize, i: usize, p: usize) -> f64
    requires { Row k n i × (p ≤ k) }
    ensures { result ≡ placed k (ridge k c lam n) i p }
{
    if i + p < k {
        return 0.0;
    }
    let j = i + p - k;
    let mut v = identity_at(i, j);
    for r in i.saturating_sub(k)..(j + 1).min(n - k) {
        v += lam * c[i - r] * c[j - r];
    }
    v
}

// Row i, from place b on.
fn ridge_row(s: &mut [f64], c: [f64; 3], lam: f64, k: usize, n: usize, i: usize, b: usize)
    requires { Row k n i × (b + (k + 1) ≤ length s.old) }
    ensures { Written b (b + (k + 1)) (λ q. placed k (ridge k c lam n) i (q - b)) s.old s.new }
{
    for p in 0..k + 1 {
        s[b + p] = ridge_at(c, lam, k, n, i, p);
    }
}

// Rows from up to, not including, to, once those before them are in their place.
fn ridge_rows(s: &mut [f64], c: [f64; 3], lam: f64, k: usize, n: usize, from: usize, to: usize)
    requires { Rows k n from to (length s.old) }
    ensures { (v : List Float) → Laid k from (ridge k c lam n) v s.old → Laid k to (ridge k c lam n) v s.new }
{
    for i in from..to {
        ridge_row(s, c, lam, k, n, i, i * (k + 1));
    }
}

// The n places from b on become what stands a row before.
fn repeat(s: &mut [f64], k: usize, b: usize, n: usize)
    requires { (k + 1 ≤ b) × (b + n ≤ length s.old) }
    ensures { Repeated (k + 1) b n s.old s.new }
{
    for i in 0..n {
        s[b + i] = s[b + i - (k + 1)];
    }
}

// All n rows, in the first places of s. From row k up to the last k they are alike.
pub fn fill_ridge(s: &mut [f64], lam: f64, k: usize, n: usize)
    requires { Series k n × (n * (k + 1) ≤ length s.old) }
    ensures { Laid k n (ridge k (stencil k) lam n) s.old s.new }
{
    let c = differences::stencil(k);
    let w = k + 1;
    if n < w + k {
        ridge_rows(s, c, lam, k, n, 0, n);
        return;
    }
    let m = n - k;
    ridge_rows(s, c, lam, k, n, 0, w);
    repeat(s, k, w * w, (m - w) * w);
    ridge_rows(s, c, lam, k, n, m, n);
}
