// The paths of a fit, once its series is prepared at the start of work: L1 with lam 0, with lam at least lam_max and by the search, and L2.
// Each writes behind the preparation, and answers what it found and where the trend stands (crates closed_paths, search_path).
#![tactic(auto)]

ghost use Rattle.std.specs.Prelude.{◌≡◌, ◌≤◌, length};
ghost use Rattle.vectors.specs.Vec.{KeptOf};
ghost use Rattle.fit.specs.Fit.{path};
ghost use Rattle.questions.specs.Asking.{asking};
ghost use Rattle.closed_paths.specs.Trends.{path_area, path_marks, trend_of, reach};
ghost use Rattle.closed_paths.specs.Taken.{AsksPath, Took};

use closed_paths::{Finding, Trend};

// The trend, where it stands.
pub fn trend_of<'a>(y: &'a [f64], work: &'a [f64], t: Trend) -> &'a [f64]
    requires { reach t (length y.now) ≤ length work.now }
    ensures { result.now ≡ trend_of y.now work.now t }
{
    let n = y.len();
    match t {
        Trend::Series => y,
        Trend::Solution => &work[8 * n..9 * n],
        Trend::Won(second) => polish::winner(&work[5 * n..18 * n], n, second),
    }
}

// The path that a fit takes: L2, or L1 by lam: 0, at least lam_max, or between. None where a pivot of L2's system is bad.
pub fn take_path(
    work: &mut [f64],
    marks: &mut [u32],
    cycle: &mut [f64],
    dual: &mut [f64],
    y: &[f64],
    lam: f64,
    tol: f64,
    max_iter: u64,
    k: usize,
    penalty: u32,
    lam_max: f64,
) -> Option<Finding>
    requires { AsksPath k penalty y.now lam_max work.old cycle.old (length dual.old) marks.old }
    ensures { Took (path (asking y.now lam tol max_iter k penalty)) k (path_area penalty (length y.now)) y.now
        work.old work.new cycle.old cycle.new dual.old dual.new result
        × KeptOf 0 0 (path_marks penalty (length y.now)) marks.old marks.new }
{
    if penalty == 2 {
        closed_paths::l2_path(work, dual, y, lam, k)
    } else if lam == 0.0 {
        Some(closed_paths::zero_path(dual, y, k))
    } else if lam_max <= lam {
        Some(closed_paths::flat_path(work, cycle, dual, y, lam, k))
    } else {
        Some(search_path::search_path(work, marks, cycle, dual, y, lam, tol, max_iter, k))
    }
}
