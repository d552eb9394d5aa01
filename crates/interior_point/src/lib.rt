// The interior point search for the dual point of an L1 fit.
#![tactic(auto)]

ghost use Rattle.std.specs.Prelude.{◌≡◌, ◌≤◌, ◌<◌, ◌+◌, ◌-◌, ◌^◌, length};
ghost use Rattle.differences.specs.Diff.{diff_k};
ghost use Rattle.certificate.specs.Ready.{Ready};
ghost use Rattle.dual_point.specs.Dual.{Dual};
ghost use Rattle.dual_point.specs.Lanes.{search_area};
ghost use Rattle.newton_step.specs.Stepped.{Stepped};
ghost use Rattle.interior_point.specs.InteriorPoint.{next_t};
ghost use Rattle.interior_point.specs.Account.{Started, test_of, Countable, lost_run, Settled, Turnable, Turned, Found};

use newton_step::Step;
use search::Reason;

// Where the search stands: its gaps and P, its counts, and whether a pivot was lost.
#[derive(Clone, Copy)]
pub struct Run {
    pub t: f64,
    pub step: f64,
    pub gap: f64,
    pub primal: f64,
    pub first: f64,
    pub best: f64,
    pub n_iter: u64,
    pub improvements: u64,
    pub stalled: u32,
    pub lost: bool,
}

// Where the search ended, and why.
#[derive(Clone, Copy)]
pub struct Ended {
    pub run: Run,
    pub reason: Reason,
}

// z = 0, mu1 = mu2 = 1, t = 1e-10, step infinite; the best gap is the first.
fn start(work: &mut [f64], dual: &mut [f64], y: &[f64], dy: &[f64], lam: f64, k: usize) -> Run
    requires { Ready k y.now dy.now (search_area (length y.now)) (length work.old) × (length y.now - k ≤ length dual.old) }
    ensures { Started k y.now lam work.old work.new dual.old dual.new result }
{
    let n = y.len();
    let a = n + (n - k);
    let e = a + (n - k) + (n - k);
    vectors::fill(work, n, a, 0.0);
    vectors::fill(work, a, e, 1.0);
    let p = certify::certify_l1(work, dual, y, dy, lam, k);
    let gap = p.primal - p.dual;
    Run {
        t: 1e-10,
        step: f64::INFINITY,
        gap,
        primal: p.primal,
        first: gap,
        best: gap,
        n_iter: 0,
        improvements: 0,
        stalled: 0,
        lost: false,
    }
}

// Why the search stops before another iteration, once a pivot that the last one lost is ruled out, in document 01's order; none where it goes on.
fn tested(r: Run, tol: f64, max_iter: u64) -> Option<Reason>
    ensures { result ≡ test_of r tol max_iter }
{
    if r.lost {
        Some(Reason::PivotLost)
    } else if r.gap <= tol * r.primal {
        Some(Reason::GapSmall)
    } else if max_iter <= r.n_iter {
        Some(Reason::LimitSpent)
    } else if r.stalled == 10 {
        Some(Reason::Stalled)
    } else {
        None
    }
}

// The next t: larger if the last step was at least 0.2.
fn next_t(t: f64, step: f64, gap: f64, m: usize) -> f64
    requires { m ≤ 65536 }
    ensures { (p : Dual) → result ≡ next_t m gap (record { point = p; t = t; step = step }) }
{
    if 0.2 <= step {
        float64::max(2.0 * (m as f64) * 2.0 / gap, 1.2 * t)
    } else {
        t
    }
}

// The Newton step on the point that stands after the n places of the trend.
fn step_at(
    work: &mut [f64],
    y: &[f64],
    dy: &[f64],
    lam: f64,
    inv_t: f64,
    g: [f64; 3],
    k: usize,
) -> Option<Step>
    requires { Ready k y.now dy.now (search_area (length y.now)) (length work.old) }
    ensures { Stepped k g (diff_k k y.now) lam inv_t (length y.now) (length y.now - k) work.old work.new result }
{
    let n = y.len();
    let m = n - k;
    newton_step::newton_step(&mut work[n..], &dy[..m], lam, inv_t, g, k, m)
}

// The account after a step that ended with this P and gap.
fn settled(r: Run, t: f64, step: f64, primal: f64, gap: f64) -> Run
    requires { Countable r }
    ensures { Settled r t step primal gap result }
{
    let next = Run {
        t,
        step,
        gap,
        primal,
        n_iter: r.n_iter + 1,
        lost: false,
        ..r
    };
    if gap < 0.99 * r.best {
        Run {
            best: gap,
            improvements: r.improvements + 1,
            stalled: 0,
            ..next
        }
    } else {
        Run {
            stalled: r.stalled + 1,
            ..next
        }
    }
}

// The account after a lost pivot: the iteration counts, and nothing else changes.
fn pivot_lost(r: Run) -> Run
    requires { r.n_iter + 1 < 2 ^ 64 }
    ensures { result ≡ lost_run r }
{
    Run {
        n_iter: r.n_iter + 1,
        lost: true,
        ..r
    }
}

// One iteration: a Newton step with the next t, and the certificate at the point that it leaves; where the point stayed it is the one of before.
fn iterate(
    work: &mut [f64],
    dual: &mut [f64],
    y: &[f64],
    dy: &[f64],
    lam: f64,
    k: usize,
    g: [f64; 3],
    r: Run,
) -> Run
    requires { Turnable k y.now dy.now lam work.old dual.old r }
    ensures { Turned k g y.now lam work.old work.new dual.old dual.new r result }
{
    let t = next_t(r.t, r.step, r.gap, y.len() - k);
    match step_at(work, y, dy, lam, 1.0 / t, g, k) {
        None => pivot_lost(r),
        Some(Step::Stayed(step)) => settled(r, t, step, r.primal, r.gap),
        Some(Step::Moved(step)) => {
            let p = certify::certify_inside(work, dual, y, dy, lam, k);
            settled(r, t, step, p.primal, p.primal - p.dual)
        }
    }
}

// The interior point search. work: the trend's n places; z, mu1, mu2; the trial's; the rows of the Newton system; dz, dmu1, dmu2. dual: the clamped z.
pub fn ipm_l1(
    work: &mut [f64],
    dual: &mut [f64],
    y: &[f64],
    dy: &[f64],
    lam: f64,
    tol: f64,
    max_iter: u64,
    k: usize,
) -> Ended
    requires { Ready k y.now dy.now (search_area (length y.now)) (length work.old) × (length y.now - k ≤ length dual.old) }
    ensures { Found k y.now lam tol max_iter work.old work.new dual.old dual.new result }
{
    let g = differences::gram_offsets(k);
    let mut r = start(work, dual, y, dy, lam, k);
    loop {
        if let Some(reason) = tested(r, tol, max_iter) {
            return Ended { run: r, reason };
        }
        r = iterate(work, dual, y, dy, lam, k, g, r);
    }
}
