// The closed paths of a prepared series: what they have in common, L1 with lam 0 and with lam at least lam_max, and L2. What a path answers, and where its trend stands.
// work holds the preparation first; a path writes only behind it.
#![tactic(auto)]

ghost use Rattle.std.specs.Prelude.{◌≡◌, List, ℕ, ◌-◌, ◌≤◌, Float, length};
ghost use Rattle.differences.specs.Series.{Series};
ghost use Rattle.fit.specs.Fit.{closed, path_zero, path_flat, path_l2};
ghost use Rattle.questions.specs.Asking.{asking};
ghost use Rattle.dual_point.specs.Lanes.{search_area};
ghost use Rattle.closed_paths.specs.Trends.{ridge_area};
ghost use Rattle.closed_paths.specs.Taken.{AsksL1, AsksL2, Differences, Finds, Took};

use fit::Numbers;
use search::Reason;

// Where a trend stands: the series is the trend; after the system of L2; or in the search's area, the candidate's if it won and else the iterate's.
#[derive(Clone, Copy)]
pub enum Trend {
    Series,
    Solution,
    Won(bool),
}

// What a path found: where its trend stands, and its numbers.
#[derive(Clone, Copy)]
pub struct Finding {
    pub trend: Trend,
    pub numbers: Numbers,
}

// The first places of cycle become D y, which stands in the preparation.
pub fn differences_to(cycle: &mut [f64], work: &[f64], y: &[f64], k: usize)
    requires { AsksL1 k (search_area (length y.now)) y.now work.now cycle.old }
    ensures { Differences k y.now cycle.old cycle.new }
{
    let n = y.len();
    vectors::copy(cycle, &work[4 * n..4 * n + (n - k)]);
}

// The numbers of a closed path.
pub fn closed(gap: f64, objective: f64) -> Numbers
    ensures { result ≡ closed gap objective }
{
    Numbers {
        gap,
        first_gap: gap,
        best_gap: gap,
        objective,
        n_iter: 0,
        improvements: 0,
        converged: true,
        reason: Reason::ClosedPath,
    }
}

// L1 with lam 0: the series is the trend, and the dual point is 0.
pub fn zero_path(dual: &mut [f64], y: &[f64], k: usize) -> Finding
    requires { Series k (length y.now) × (length y.now - k ≤ length dual.old) }
    ensures { (l : ℕ) (w c : List Float) → Finds (λ (i : (Float × Float) × (ℕ × ℕ)). path_zero (asking y.now i.0.0 i.0.1 i.1.0 k i.1.1)) k l y.now
        w w c c dual.old dual.new result }
{
    let m = y.len() - k;
    vectors::fill(dual, 0, m, 0.0);
    Finding {
        trend: Trend::Series,
        numbers: closed(0.0, 0.0),
    }
}

// L1 with lam at least lam_max: the certificate at z*, which is read from the preparation. cycle holds D y meanwhile.
pub fn flat_path(
    work: &mut [f64],
    cycle: &mut [f64],
    dual: &mut [f64],
    y: &[f64],
    lam: f64,
    k: usize,
) -> Finding
    requires { AsksL1 k (search_area (length y.now)) y.now work.old cycle.old × (length y.now - k ≤ length dual.old) }
    ensures { Finds (λ (i : Float × (ℕ × ℕ)). path_flat (asking y.now lam i.0 i.1.0 k i.1.1)) k (search_area (length y.now)) y.now
        work.old work.new cycle.old cycle.new dual.old dual.new result }
{
    differences_to(cycle, work, y, k);
    let n = y.len();
    let m = n - k;
    let a = 5 * n;
    let z = a + n;
    let e = z + m;
    vectors::copy_within(work, m * (k + 1), z, m);
    let p = certify::certify_l1(&mut work[a..e], dual, y, cycle, lam, k);
    Finding {
        trend: Trend::Won(false),
        numbers: closed(p.primal - p.dual, p.primal),
    }
}

// L2; none where a pivot of its system is bad. The system's rows end where the trend is to stand.
pub fn l2_path(work: &mut [f64], dual: &mut [f64], y: &[f64], lam: f64, k: usize) -> Option<Finding>
    requires { AsksL2 k (ridge_area (length y.now)) (length y.now) (length work.old) × (length y.now - k ≤ length dual.old) }
    ensures { (tol : Float) (max_iter penalty : ℕ) (c : List Float) → Took (path_l2 (asking y.now lam tol max_iter k penalty)) k (ridge_area (length y.now)) y.now
        work.old work.new c c dual.old dual.new result }
{
    let n = y.len();
    let b = 8 * n;
    let a = b - n * (k + 1);
    let e = 9 * n;
    if !l2::solve_l2(&mut work[a..e], y, lam, k) {
        return None;
    }
    let o = l2::objectives(dual, &work[b..e], y, lam, k);
    Some(Finding {
        trend: Trend::Solution,
        numbers: closed(o.gap, o.objective),
    })
}
