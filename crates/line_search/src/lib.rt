// The line search along the direction of a Newton step. A point stands in a run as z, mu1, mu2, m places each.
#![tactic(auto)]

ghost use Rattle.std.specs.Prelude.{◌≡◌, false, is_some, unwrap_or, ◌+◌, ◌*◌, length};
ghost use Rattle.vectors.specs.Vec.{at};
ghost use Rattle.vectors.specs.Sums.{sum_to};
ghost use Rattle.vectors.specs.Parts.{Kept, Written};
ghost use Rattle.differences.specs.Series.{Order};
ghost use Rattle.gram.specs.Gram.{product};
ghost use Rattle.newton_system.specs.Newton.{residual_norm};
ghost use Rattle.newton_system.specs.Rows.{data_of};
ghost use Rattle.dual_point.specs.Places.{point};
ghost use Rattle.line_search.specs.LineSearch.{sufficient_decrease};
ghost use Rattle.line_search.specs.Places.{MoveRoom, moved, TrialRoom, Stretch, Squares, LineRoom, Attempted, Searched};

// The places from `from` up to `to` of the trial at a step, which stands from c on. The point stands in the first places, the direction from b on.
fn move_part(s: &mut [f64], from: usize, to: usize, b: usize, c: usize, step: f64)
    requires { MoveRoom from to b c (length s.old) }
    ensures { Written (c + from) (c + to) (moved b c step s.old) s.old s.new }
{
    for i in from..to {
        s[c + i] = s[i] + step * s[b + i];
    }
}

// Place i of (D D') z; inner says that it lies away from the ends.
fn product_at(z: &[f64], g: [f64; 3], k: usize, i: usize, inner: bool) -> f64
    requires { Order k × Stretch k (length z.now) i (i + 1) inner }
    ensures { result ≡ product k g z.now i }
{
    if inner {
        gram::product_inner(z, g, k, i)
    } else {
        gram::product(z, g, k, i)
    }
}

// What the trial's places from `from` up to `to` add to the square of its residual, in the m places after the trial.
// inner says that they lie away from the ends. It is a constant at each call, so that the compiler makes a loop for each.
fn squares(
    s: &mut [f64],
    dy: &[f64],
    lam: f64,
    inv_t: f64,
    g: [f64; 3],
    k: usize,
    m: usize,
    from: usize,
    to: usize,
    inner: bool,
)
    requires { TrialRoom k m (length s.old) (length dy.now) × Stretch k m from to inner }
    ensures { Squares (data_of k g dy.now lam inv_t) m from to s.old s.new }
{
    let c = 3 * m;
    let d = 4 * m;
    for i in from..to {
        let q = product_at(&s[c..d], g, k, i, inner);
        s[c + c + i] = newton_system::residual_of(
            q,
            dy[i],
            s[c + i],
            s[c + m + i],
            s[c + m + m + i],
            lam,
            inv_t,
        );
    }
}

// The same for all its places: those near the first end, those away from the ends, those near the last end.
fn squares_into(s: &mut [f64], dy: &[f64], lam: f64, inv_t: f64, g: [f64; 3], k: usize, m: usize)
    requires { TrialRoom k m (length s.old) (length dy.now) }
    ensures { Squares (data_of k g dy.now lam inv_t) m 0 m s.old s.new }
{
    if m <= k + k {
        squares(s, dy, lam, inv_t, g, k, m, 0, m, false);
        return;
    }
    squares(s, dy, lam, inv_t, g, k, m, 0, k, false);
    squares(s, dy, lam, inv_t, g, k, m, k, m - k, true);
    squares(s, dy, lam, inv_t, g, k, m, m - k, m, false);
}

// The sum of a vector, in order.
fn sum(v: &[f64]) -> f64
    ensures { result ≡ sum_to (at v.now) (length v.now) }
{
    let mut a = 0.0;
    for x in v {
        a += x;
    }
    a
}

// Whether the norm of the residual at the trial is low enough against the old one.
fn low_enough(
    s: &mut [f64],
    dy: &[f64],
    lam: f64,
    inv_t: f64,
    g: [f64; 3],
    k: usize,
    m: usize,
    step: f64,
    old: f64,
) -> bool
    requires { TrialRoom k m (length s.old) (length dy.now) }
    ensures { (result ≡ sufficient_decrease (residual_norm (data_of k g dy.now lam inv_t) (point (3 * m) m s.old)) step old)
        × Kept (6 * m) m s.old s.new }
{
    let e = 6 * m;
    let f = 7 * m;
    squares_into(s, dy, lam, inv_t, g, k, m);
    let a = sum(&s[e..f]);
    square_root::sqrt(a) <= (1.0 - 0.01 * step) * old
}

// One trial, the point at a step: whether it is accepted, or None where it is not inside. Its mu1 and mu2 are made only inside.
fn attempt(
    s: &mut [f64],
    b: usize,
    dy: &[f64],
    lam: f64,
    inv_t: f64,
    g: [f64; 3],
    k: usize,
    m: usize,
    step: f64,
    old: f64,
) -> Option<bool>
    requires { LineRoom k m b (length s.old) (length dy.now) }
    ensures { Attempted (data_of k g dy.now lam inv_t) m b step old s.old s.new (is_some result) (unwrap_or result false) }
{
    let c = 3 * m;
    let d = c + m;
    move_part(s, 0, m, b, c, step);
    if !vectors::inside(&s[c..d], lam) {
        return None;
    }
    move_part(s, m, c, b, c, step);
    Some(low_enough(s, dy, lam, inv_t, g, k, m, step, old))
}

// How a line search ended: its last step, halved if the trial was not accepted, and whether the last trial is inside.
#[derive(Clone, Copy)]
pub struct Trial {
    pub step: f64,
    pub inside: bool,
}

// The most trials of a search.
const TRIALS: usize = 20;

// Up to 20 trials; the last stands after the point, if it is inside.
pub fn line_search(
    s: &mut [f64],
    b: usize,
    dy: &[f64],
    lam: f64,
    inv_t: f64,
    g: [f64; 3],
    k: usize,
    m: usize,
    cap: f64,
    old: f64,
) -> Trial
    requires { LineRoom k m b (length s.old) (length dy.now) }
    ensures { Searched (data_of k g dy.now lam inv_t) m b cap old s.old s.new result.step result.inside }
{
    let mut step = cap;
    let mut inside = false;
    for _ in 0..TRIALS {
        let trial = attempt(s, b, dy, lam, inv_t, g, k, m, step, old);
        if trial == Some(true) {
            return Trial { step, inside: true };
        }
        inside = trial.is_some();
        step *= 0.5;
    }
    Trial { step, inside }
}
