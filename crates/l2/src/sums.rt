// The sums that the objective and the gap are made of.
ghost use Rattle.std.specs.Prelude.{◌≡◌, ◌≤◌, ◌-◌, ◌+◌, length};
ghost use Rattle.float64.specs.Ops.{◌⊗◌};
ghost use Rattle.vectors.specs.Vec.{at, put};
ghost use Rattle.vectors.specs.Sums.{sum_to, norm2_sq, dot};
ghost use Rattle.differences.specs.Diff.{diff_k};
ghost use Rattle.differences.specs.Series.{Order, Series};
ghost use Rattle.certificate.specs.Certificate.{minus};
ghost use Rattle.l2.specs.L2.{scaled};

// Σ(y - x)² and Σ(D x)².
#[derive(Clone, Copy)]
pub struct PrimalSums {
    pub residual: f64,
    pub differences: f64,
}

// Σ(y - x)², where sum is that of the places below from.
fn residual_rest(x: &[f64], y: &[f64], from: usize, sum: f64) -> f64
    requires { (length y.now ≤ length x.now) × (from ≤ length y.now) }
    ensures { sum ≡ sum_to (λ j. at (minus y.now x.now) j ⊗ at (minus y.now x.now) j) from → result ≡ norm2_sq (minus y.now x.now) }
{
    let mut sum = sum;
    for i in from..y.len() {
        let d = y[i] - x[i];
        sum += d * d;
    }
    sum
}

// Both, side by side as far as D x goes.
pub fn squares(x: &[f64], y: &[f64], k: usize) -> PrimalSums
    requires { Series k (length y.now) × (length x.now ≡ length y.now) }
    ensures { (result.residual ≡ norm2_sq (minus y.now x.now)) × (result.differences ≡ norm2_sq (diff_k k x.now)) }
{
    let m = x.len() - k;
    let mut a = 0.0;
    let mut b = 0.0;
    for i in 0..m {
        let r = y[i] - x[i];
        let d = differences::diff_at(x, k, i);
        a += r * r;
        b += d * d;
    }
    PrimalSums {
        residual: residual_rest(x, y, m, a),
        differences: b,
    }
}

// Σ v·D y and Σ v².
#[derive(Clone, Copy)]
pub struct DualSums {
    pub dot: f64,
    pub square: f64,
}

// Both, side by side.
pub fn products(v: &[f64], y: &[f64], k: usize) -> DualSums
    requires { Order k × (length v.now + k ≤ length y.now) }
    ensures { (result.dot ≡ dot v.now (diff_k k y.now)) × (result.square ≡ norm2_sq v.now) }
{
    let mut a = 0.0;
    let mut b = 0.0;
    for (i, x) in v.iter().enumerate() {
        a += x * differences::diff_at(y, k, i);
        b += x * x;
    }
    DualSums { dot: a, square: b }
}

// The first places of v become lam D x.
pub fn scale_diff(v: &mut [f64], x: &[f64], lam: f64, k: usize)
    requires { Series k (length x.now) × (length x.now - k ≤ length v.old) }
    ensures { v.new ≡ put v.old 0 (scaled lam (diff_k k x.now)) }
{
    let m = x.len() - k;
    for i in 0..m {
        v[i] = lam * differences::diff_at(x, k, i);
    }
}
