// L1 with 0 < lam < lam_max: the search and its polish.
#![tactic(auto)]

ghost use Rattle.std.specs.Prelude.{◌≡◌, cond, ℕ, ◌≤◌, length, unwrap_or};
ghost use Rattle.vectors.specs.Vec.{put, KeptOf};
ghost use Rattle.certificate.specs.Certificate.{clamped};
ghost use Rattle.polish.specs.Places.{Polishable};
ghost use Rattle.dual_point.specs.Lanes.{search_area};
ghost use Rattle.questions.specs.Asking.{asking};
ghost use Rattle.fit.specs.Fit.{search_of, path_end};
ghost use Rattle.closed_paths.specs.Trends.{search_marks};
ghost use Rattle.closed_paths.specs.Taken.{AsksSearch, Finds};
ghost use Rattle.search_path.specs.Search.{SearchedArea};

use closed_paths::{Finding, Trend};
use fit::Numbers;
use polish::Candidate;

// The numbers of the candidate if it won, and else the iterate's.
fn chosen(q: Option<Candidate>, iterate: Candidate, second: bool) -> Candidate
    ensures { result ≡ cond second (unwrap_or q iterate) iterate }
{
    if second {
        q.unwrap_or(iterate)
    } else {
        iterate
    }
}

// The clamped z again at the start of dual, unless the candidate won: the polish wrote its own there.
fn keep(dual: &mut [f64], z: &[f64], lam: f64, second: bool)
    requires { length z.now ≤ length dual.old }
    ensures { dual.new ≡ cond second dual.old (put dual.old 0 (clamped lam z.now)) }
{
    if !second {
        certify::clamp_into(dual, z, lam);
    }
}

// The search and its polish, in an area of their own: the iterate's trend at its start, the candidate's behind it.
fn search_polish(
    work: &mut [f64],
    dual: &mut [f64],
    marks: &mut [u32],
    y: &[f64],
    dy: &[f64],
    lam: f64,
    tol: f64,
    max_iter: u64,
    k: usize,
) -> Finding
    requires { Polishable k y.now dy.now (length work.old) (length dual.old) (length marks.old) }
    ensures { SearchedArea y.now lam tol max_iter k work.old work.new dual.old dual.new marks.old marks.new result }
{
    let e = interior_point::ipm_l1(work, dual, y, dy, lam, tol, max_iter, k);
    let r = e.run;
    let q = polish::polish_l1(work, dual, marks, y, dy, lam, k);
    let second = polish::won(q, r.gap);
    let n = y.len();
    keep(dual, &work[n..n + (n - k)], lam, second);
    let iterate = Candidate {
        gap: r.gap,
        primal: r.primal,
    };
    let end = chosen(q, iterate, second);
    Finding {
        trend: Trend::Won(second),
        numbers: Numbers {
            gap: end.gap,
            first_gap: r.first,
            best_gap: r.best,
            objective: end.primal,
            n_iter: r.n_iter,
            improvements: r.improvements,
            converged: end.gap <= tol * end.primal,
            reason: e.reason,
        },
    }
}

// The path: cycle holds D y meanwhile, and the area is the one behind the preparation.
pub fn search_path(
    work: &mut [f64],
    marks: &mut [u32],
    cycle: &mut [f64],
    dual: &mut [f64],
    y: &[f64],
    lam: f64,
    tol: f64,
    max_iter: u64,
    k: usize,
) -> Finding
    requires { AsksSearch k (search_area (length y.now)) (search_marks (length y.now)) y.now work.old cycle.old (length dual.old) marks.old }
    ensures { Finds (λ (p : ℕ). path_end (asking y.now lam tol max_iter k p) (search_of (asking y.now lam tol max_iter k p))) k (search_area (length y.now)) y.now
        work.old work.new cycle.old cycle.new dual.old dual.new result
        × KeptOf 0 0 (search_marks (length y.now)) marks.old marks.new }
{
    closed_paths::differences_to(cycle, work, y, k);
    let n = y.len();
    search_polish(
        &mut work[5 * n..18 * n],
        dual,
        marks,
        y,
        cycle,
        lam,
        tol,
        max_iter,
        k,
    )
}
