// D D': its rows, its product with a vector at one place, and z*, which solves (D D') z = D y.
#![tactic(auto)]

ghost use Rattle.std.specs.Prelude.{◌≡◌, ◌≤◌, ◌<◌, ◌-◌, ◌+◌, ◌*◌, length};
ghost use Rattle.vectors.specs.Parts.{Written};
ghost use Rattle.banded.specs.Rows.{placed};
ghost use Rattle.banded.specs.Layout.{Laid};
ghost use Rattle.gram.specs.Gram.{gram, product as product_of};
ghost use Rattle.gram.specs.Prepared.{preparation, System, Prepared};
ghost use Rattle.differences.specs.Series.{Order, Series};

// Place c of row r of D D'.
fn gram_at(g: [f64; 3], k: usize, r: usize, c: usize) -> f64
    requires { (k ≤ 2) × (c ≤ k) }
    ensures { result ≡ placed k (gram k g) r c }
{
    if r < k - c { 0.0 } else { g[k - c] }
}

// Row r of D D', from place p on.
fn gram_row(s: &mut [f64], g: [f64; 3], k: usize, r: usize, p: usize)
    requires { (k ≤ 2) × (p + (k + 1) ≤ length s.old) }
    ensures { Written p (p + (k + 1)) (λ q. placed k (gram k g) r (q - p)) s.old s.new }
{
    for c in 0..k + 1 {
        s[p + c] = gram_at(g, k, r, c);
    }
}

// The m rows of D D' in the first places of s.
fn fill_gram(s: &mut [f64], g: [f64; 3], k: usize, m: usize)
    requires { (k ≤ 2) × (m * (k + 1) ≤ length s.old) }
    ensures { Laid k m (gram k g) s.old s.new }
{
    for r in 0..m {
        gram_row(s, g, k, r, r * (k + 1));
    }
}

// The system (D D') z = D y, with D y in its own lane too.
fn lay_system(s: &mut [f64], y: &[f64], k: usize)
    requires { Series k (length y.now) × (preparation (length y.now) ≤ length s.old) }
    ensures { System k y.now s.old s.new }
{
    let n = y.len();
    let m = n - k;
    let b = m * (k + 1);
    let g = differences::gram_offsets(k);
    fill_gram(s, g, k, m);
    let d = 4 * n;
    let e = d + m;
    differences::diff_k(&mut s[d..e], y, k);
    vectors::copy_within(s, d, b, m);
}

// The preparation of a series: the factor of D D', z*, D y; it gives lam_max, or None where a pivot is bad.
pub fn prepare(s: &mut [f64], y: &[f64], k: usize) -> Option<f64>
    requires { Series k (length y.now) × (preparation (length y.now) ≤ length s.old) }
    ensures { Prepared k y.now s.old s.new result }
{
    lay_system(s, y, k);
    let m = y.len() - k;
    if !substitution::factor_solve_at(s, 0, k, m) {
        return None;
    }
    let b = m * (k + 1);
    let e = b + m;
    Some(vectors::max_abs(&s[b..e]))
}

// Place i of (D D') z at any order, at the ends too.
fn product_any(z: &[f64], g: [f64; 3], k: usize, i: usize) -> f64
    requires { (k ≤ 2) × (i < length z.now) }
    ensures { result ≡ product_of k g z.now i }
{
    let mut v = 0.0;
    for j in i.saturating_sub(k)..(i + k + 1).min(z.len()) {
        v += g[i.abs_diff(j)] * z[j];
    }
    v
}

// The same away from the ends, written out for order 1 and 2.
pub fn product_inner(z: &[f64], g: [f64; 3], k: usize, i: usize) -> f64
    requires { Order k × (k ≤ i) × (i + k < length z.now) }
    ensures { result ≡ product_of k g z.now i }
{
    if k == 1 {
        0.0 + g[1] * z[i - 1] + g[0] * z[i] + g[1] * z[i + 1]
    } else {
        0.0 + g[2] * z[i - 2] + g[1] * z[i - 1] + g[0] * z[i] + g[1] * z[i + 1] + g[2] * z[i + 2]
    }
}

// Place i of (D D') z.
pub fn product(z: &[f64], g: [f64; 3], k: usize, i: usize) -> f64
    requires { Order k × (i < length z.now) }
    ensures { result ≡ product_of k g z.now i }
{
    if k <= i && i + k < z.len() {
        product_inner(z, g, k, i)
    } else {
        product_any(z, g, k, i)
    }
}
