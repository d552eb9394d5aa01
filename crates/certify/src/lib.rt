// The certificate of a dual point: P, G and the clamped z.
#![tactic(auto)]

ghost use Rattle.std.specs.Prelude.{◌≡◌, true, ◌≤◌, ◌-◌, ◌+◌, length};
ghost use Rattle.float64.specs.Ops.{◌⊕◌, ◌⊗◌, half};
ghost use Rattle.vectors.specs.Vec.{put};
ghost use Rattle.vectors.specs.Sums.{dot, inside};
ghost use Rattle.differences.specs.Series.{Order};
ghost use Rattle.certificate.specs.Certificate.{clamped, dual_value};
ghost use Rattle.certificate.specs.Run.{dual_of, Certified};
ghost use Rattle.certificate.specs.Ready.{Ready};

// P and G.
#[derive(Clone, Copy)]
pub struct Pair {
    pub primal: f64,
    pub dual: f64,
}

// The first places of dual become z, each place clamped to lam.
pub fn clamp_into(dual: &mut [f64], z: &[f64], lam: f64)
    requires { length z.now ≤ length dual.old }
    ensures { dual.new ≡ put dual.old 0 (clamped lam z.now) }
{
    for (i, x) in z.iter().enumerate() {
        dual[i] = float64::clamp(*x, lam);
    }
}

// The sum of v·D y.
fn product(v: &[f64], dy: &[f64]) -> f64
    requires { length v.now ≤ length dy.now }
    ensures { result ≡ dot v.now dy.now }
{
    let mut a = 0.0;
    for (i, x) in v.iter().enumerate() {
        a += x * dy[i];
    }
    a
}

// G at the clamped z, which the first places of dual become.
fn dual_of(dual: &mut [f64], z: &[f64], dy: &[f64], lam: f64, k: usize) -> f64
    requires { Order k × (length z.now ≤ length dy.now) × (length z.now ≤ length dual.old) }
    ensures { (result ≡ dual_value k dy.now (clamped lam z.now)) × (dual.new ≡ put dual.old 0 (clamped lam z.now)) }
{
    clamp_into(dual, z, lam);
    let m = z.len();
    let a = differences::fall_squares(&dual[0..m], k);
    let b = product(&dual[0..m], dy);
    -0.5 * a + b
}

fn primal_of(t: certificate::Sums, lam: f64) -> f64
    ensures { result ≡ half ⊗ t.squares ⊕ lam ⊗ t.dx }
{
    0.5 * t.squares + lam * t.dx
}

// The certificate at a z that lies inside the bounds, and so is its own clamped z. All else is as for certify_l1.
pub fn certify_inside(
    s: &mut [f64],
    dual: &mut [f64],
    y: &[f64],
    dy: &[f64],
    lam: f64,
    k: usize,
) -> Pair
    requires { Ready k y.now dy.now (length y.now + (length y.now - k)) (length s.old) × (length y.now - k ≤ length dual.old) × (inside lam (dual_of k y.now s.old) ≡ true) }
    ensures { Certified k y.now lam s.old s.new dual.old dual.new result.primal result.dual }
{
    let n = y.len();
    let e = n + (n - k);
    let t = certificate::passes(s, y, dy, k);
    vectors::copy(dual, &s[n..e]);
    Pair {
        primal: primal_of(t, lam),
        dual: -0.5 * t.squares + t.dot,
    }
}

// The certificate at z, which stands in s after n places for the trend. dy begins with D y. The first places of dual become the clamped z.
pub fn certify_l1(
    s: &mut [f64],
    dual: &mut [f64],
    y: &[f64],
    dy: &[f64],
    lam: f64,
    k: usize,
) -> Pair
    requires { Ready k y.now dy.now (length y.now + (length y.now - k)) (length s.old) × (length y.now - k ≤ length dual.old) }
    ensures { Certified k y.now lam s.old s.new dual.old dual.new result.primal result.dual }
{
    let n = y.len();
    let e = n + (n - k);
    if vectors::inside(&s[n..e], lam) {
        return certify_inside(s, dual, y, dy, lam, k);
    }
    let t = certificate::passes(s, y, dy, k);
    let g = dual_of(dual, &s[n..e], dy, lam, k);
    Pair {
        primal: primal_of(t, lam),
        dual: g,
    }
}
