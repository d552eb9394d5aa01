// L2: the trend that solves (I + lam D'D) x = y, its objective and its gap.
#![tactic(auto)]

mod sums;

ghost use Rattle.std.specs.Prelude.{◌≡◌, ◌≤◌, ◌+◌, ◌-◌, ◌*◌, length};
ghost use Rattle.differences.specs.Series.{Series};
ghost use Rattle.l2.specs.L2.{objective_l2, dual_l2};
ghost use Rattle.l2.specs.Solved.{SolvedL2, Ended};

// The rows of the system and then y in the first places of s, solved: the trend stands after the rows. Whether every pivot was good.
pub fn solve_l2(s: &mut [f64], y: &[f64], lam: f64, k: usize) -> bool
    requires { Series k (length y.now) × (length y.now * (k + 1) + length y.now ≤ length s.old) }
    ensures { SolvedL2 k y.now lam s.old s.new result }
{
    let n = y.len();
    ridge::fill_ridge(s, lam, k, n);
    let b = n * (k + 1);
    let e = b + n;
    vectors::copy(&mut s[b..e], y);
    substitution::factor_solve_at(s, 0, k, n)
}

// The objective of the trend x.
fn objective(x: &[f64], y: &[f64], lam: f64, k: usize) -> f64
    requires { Series k (length y.now) × (length x.now ≡ length y.now) }
    ensures { result ≡ objective_l2 k y.now lam x.now }
{
    let s = sums::squares(x, y, k);
    0.5 * s.residual + 0.5 * lam * s.differences
}

// G at v = lam D x.
fn dual_l2(v: &[f64], y: &[f64], lam: f64, k: usize) -> f64
    requires { Series k (length y.now) × (length v.now + k ≡ length y.now) }
    ensures { result ≡ dual_l2 k y.now lam v.now }
{
    let a = differences::fall_squares(v, k);
    let p = sums::products(v, y, k);
    -0.5 * a + p.dot - p.square / (2.0 * lam)
}

#[derive(Clone, Copy)]
pub struct Ends {
    pub gap: f64,
    pub objective: f64,
}

// The objective and the gap of the trend x. The first places of dual become lam D x.
pub fn objectives(dual: &mut [f64], x: &[f64], y: &[f64], lam: f64, k: usize) -> Ends
    requires { Series k (length y.now) × (length x.now ≡ length y.now) × (length y.now - k ≤ length dual.old) }
    ensures { Ended k y.now lam x.now dual.old dual.new result }
{
    let p = objective(x, y, lam, k);
    sums::scale_diff(dual, x, lam, k);
    if !(0.0 < lam) {
        return Ends {
            gap: 0.0,
            objective: p,
        };
    }
    let m = y.len() - k;
    let d = dual_l2(&dual[0..m], y, lam, k);
    Ends {
        gap: p - d,
        objective: p,
    }
}
