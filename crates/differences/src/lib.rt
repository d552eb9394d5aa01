// The differences of a series and their transpose, the stencil and the Gram row.
#![tactic(auto)]

ghost use Rattle.std.specs.Prelude.{◌≡◌, ◌≤◌, ◌<◌, ◌-◌, ◌+◌, length};
ghost use Rattle.vectors.specs.Vec.{at, put};
ghost use Rattle.vectors.specs.Sums.{norm2_sq};
ghost use Rattle.differences.specs.Diff.{diff_k, fall, diff_kt, stencil as stencil_of, gram_row};
ghost use Rattle.differences.specs.Series.{Order, Series};

// The row of D. The last place is not used for order 1.
pub fn stencil(k: usize) -> [f64; 3]
    ensures { result ≡ stencil_of k }
{
    if k == 1 {
        [-1.0, 1.0, 0.0]
    } else {
        [1.0, -2.0, 1.0]
    }
}

// The numbers of D D' by their distance from its diagonal.
pub fn gram_offsets(k: usize) -> [f64; 3]
    ensures { result ≡ gram_row k }
{
    if k == 1 {
        [2.0, -1.0, 0.0]
    } else {
        [6.0, -4.0, 1.0]
    }
}

// Place i of D y, for order 1 and 2.
#[tactic(auto, using(crate::proofs::Laws::diff_at_1, crate::proofs::Laws::diff_at_2))]
pub fn diff_at(y: &[f64], k: usize, i: usize) -> f64
    requires { Order k × (i + k < length y.now) }
    ensures { result ≡ at (diff_k k y.now) i }
{
    if k == 1 {
        return y[i + 1] - y[i];
    }
    (y[i + 2] - y[i + 1]) - (y[i + 1] - y[i])
}

// The first places of d become D y.
pub fn diff_k(d: &mut [f64], y: &[f64], k: usize)
    requires { Series k (length y.now) × (length y.now - k ≤ length d.old) }
    ensures { d.new ≡ put d.old 0 (diff_k k y.now) }
{
    for i in 0..y.len() - k {
        d[i] = diff_at(y, k, i);
    }
}

// w[j-1] - w[j] at place j of D' w for order 1, with 0 beyond either end.
fn fall_at(v: &[f64], j: usize) -> f64
    requires { j ≤ length v.now }
    ensures { result ≡ fall (length v.now) (at v.now) j }
{
    let before = if 0 < j { v[j - 1] } else { 0.0 };
    let here = if j < v.len() { v[j] } else { 0.0 };
    before - here
}

// Place j of D' z away from the ends, for order 1 and 2.
#[tactic(auto, using(crate::proofs::Laws::inner_at_1, crate::proofs::Laws::inner_at_2))]
pub fn diff_t_inner(z: &[f64], k: usize, j: usize) -> f64
    requires { Order k × (k ≤ j) × (j < length z.now) }
    ensures { result ≡ at (diff_kt k z.now) j }
{
    if k == 1 {
        return z[j - 1] - z[j];
    }
    (z[j - 2] - z[j - 1]) - (z[j - 1] - z[j])
}

// Any place j of D' z.
#[tactic(auto, using(crate::proofs::Laws::fall_at_1, crate::proofs::Laws::fall_at_2))]
pub fn diff_t_at(z: &[f64], k: usize, j: usize) -> f64
    requires { Order k × (j < length z.now + k) }
    ensures { result ≡ at (diff_kt k z.now) j }
{
    if k <= j && j < z.len() {
        return diff_t_inner(z, k, j);
    }
    if k == 1 {
        return fall_at(z, j);
    }
    let before = if 0 < j { fall_at(z, j - 1) } else { 0.0 };
    let here = if j <= z.len() { fall_at(z, j) } else { 0.0 };
    before - here
}

// Σ(D'v)²
#[tactic(auto, using(crate::proofs::Laws::lengths), unfolding(vectors::specs::Sums::sum_to, vectors::specs::Sums::norm2_sq))]
pub fn fall_squares(v: &[f64], k: usize) -> f64
    requires { Order k }
    ensures { result ≡ norm2_sq (diff_kt k v.now) }
{
    let mut sum = 0.0;
    for j in 0..v.len() + k {
        let d = diff_t_at(v, k, j);
        sum += d * d;
    }
    sum
}
