// The entries for callers in C: the fit, what it needs, where a trend passes a level and the knot nearest a place. Each answers 0, or a refusal's number.
ghost use Rattle.std.specs.Prelude.{◌≡◌, length};
ghost use Rattle.questions.specs.Asking.{asking};
ghost use Rattle.questions.specs.Refusals.{numbered};
ghost use Rattle.trend_filter.specs.Calls.{Told, Called};
ghost use Rattle.trend_filter.specs.Answers.{buffers};
ghost use Rattle.questions.specs.Beforehand.{needed};
ghost use Rattle.crossings.specs.Nearest.{nearest_knot};
ghost use Rattle.trend_filter.specs.Needs.{NeedsTold};
ghost use Rattle.trend_filter.specs.Crossings.{CrossingsTold, KnotTold};

use crate::{Summary, TrendFilterOptions};
use questions::Refusal;

// The answer as a number, with a fit's numbers and counts.
fn tell(numbers: &mut [f64; 5], counts: &mut [u64; 5], a: Result<Summary, Refusal>) -> u32
    ensures { Told (numbered a) result numbers.old numbers.new counts.old counts.new }
{
    match a {
        Err(refused) => u32::from(refused),
        Ok(s) => {
            let c = u64::from(s.converged);
            let w = u64::from(s.reason);
            *numbers = [s.lam_max, s.gap, s.first_gap, s.best_gap, s.objective];
            *counts = [s.knots as u64, s.n_iter, s.improvements, c, w];
            0
        }
    }
}

// numbers are lam_max, gap, first gap, best gap and objective; counts are knots, n_iter, improvements, converged (0 or 1) and the reason (0 to 4).
pub fn trend_filter_fit(
    y: &[f64],
    lam: f64,
    tol: f64,
    max_iter: u64,
    order: u32,
    penalty: u32,
    trend: &mut [f64],
    cycle: &mut [f64],
    knots: &mut [u32],
    dual: &mut [f64],
    work: &mut [f64],
    marks: &mut [u32],
    numbers: &mut [f64; 5],
    counts: &mut [u64; 5],
) -> u32
    ensures { Called (asking y.now lam tol max_iter order penalty) result
        (buffers trend.old cycle.old knots.old dual.old work.old marks.old)
        (buffers trend.new cycle.new knots.new dual.new work.new marks.new)
        numbers.old numbers.new counts.old counts.new }
{
    let o = TrendFilterOptions {
        order,
        penalty,
        tol,
        max_iter,
    };
    let a = crate::l1_trend_filter(y, lam, o, trend, cycle, knots, dual, work, marks);
    tell(numbers, counts, a)
}

// What a fit of n places needs: work places, marks places and the most steps.
pub fn trend_filter_needs(
    n: u64,
    max_iter: u64,
    order: u32,
    penalty: u32,
    needs: &mut [u64; 3],
) -> u32
    ensures { NeedsTold (needed n max_iter order penalty) result needs.old needs.new }
{
    match questions::needs(n, max_iter, order, penalty) {
        Err(r) => u32::from(r),
        Ok(g) => {
            *needs = [g.work, g.marks, g.steps];
            0
        }
    }
}

// The first places of list become the places at which the trend passes the level; found is how many there are.
pub fn trend_filter_crossings(
    level: f64,
    trend: &[f64],
    list: &mut [u32],
    found: &mut [u64; 1],
) -> u32
    ensures { CrossingsTold level trend.now result list.old list.new found.old found.new }
{
    match crossings::crossings(level, trend, list) {
        Err(unlisted) => u32::from(unlisted),
        Ok(n) => {
            *found = [n as u64];
            0
        }
    }
}

// The knot nearest a place of the trend: found is 1 and the knot, or 0 and 0 where there is none.
pub fn trend_filter_nearest_knot(
    place: u64,
    trend: &[f64],
    knots: &[u32],
    found: &mut [u64; 2],
) -> u32
    ensures { KnotTold (nearest_knot place (length trend.now) knots.now) result found.old found.new }
{
    match crossings::nearest_knot(place, trend, knots) {
        Err(r) => u32::from(r),
        Ok(None) => {
            *found = [0, 0];
            0
        }
        Ok(Some(k)) => {
            *found = [1, u64::from(k)];
            0
        }
    }
}
