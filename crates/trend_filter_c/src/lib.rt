// The static library for callers in C: the entries of trend_filter under names for C, each with its clauses. bindings/c/trend_filter.h declares them.
#![tactic(auto)]

ghost use Rattle.std.specs.Prelude.{length};
ghost use Rattle.questions.specs.Asking.{asking};
ghost use Rattle.questions.specs.Beforehand.{needed};
ghost use Rattle.crossings.specs.Nearest.{nearest_knot};
ghost use Rattle.trend_filter.specs.Answers.{buffers};
ghost use Rattle.trend_filter.specs.Calls.{Called};
ghost use Rattle.trend_filter.specs.Needs.{NeedsTold};
ghost use Rattle.trend_filter.specs.Crossings.{CrossingsTold, KnotTold};

// numbers are lam_max, gap, first gap, best gap and objective; counts are knots, n_iter, improvements, converged (0 or 1) and the reason (0 to 4).
#[unsafe(no_mangle)]
pub extern "C" fn trend_filter_fit(
    y: &[f64],
    lam: f64,
    tol: f64,
    max_iter: u64,
    order: u32,
    penalty: u32,
    trend: &mut [f64],
    cycle: &mut [f64],
    knots: &mut [u32],
    dual: &mut [f64],
    work: &mut [f64],
    marks: &mut [u32],
    numbers: &mut [f64; 5],
    counts: &mut [u64; 5],
) -> u32
    ensures { Called (asking y.now lam tol max_iter order penalty) result
        (buffers trend.old cycle.old knots.old dual.old work.old marks.old)
        (buffers trend.new cycle.new knots.new dual.new work.new marks.new)
        numbers.old numbers.new counts.old counts.new }
{
    trend_filter::c::trend_filter_fit(
        y, lam, tol, max_iter, order, penalty, trend, cycle, knots, dual, work, marks, numbers,
        counts,
    )
}

// What a fit of n places needs: work places, marks places and the most steps.
#[unsafe(no_mangle)]
pub extern "C" fn trend_filter_needs(
    n: u64,
    max_iter: u64,
    order: u32,
    penalty: u32,
    needs: &mut [u64; 3],
) -> u32
    ensures { NeedsTold (needed n max_iter order penalty) result needs.old needs.new }
{
    trend_filter::c::trend_filter_needs(n, max_iter, order, penalty, needs)
}

// The first places of list become the places at which the trend passes the level; found is how many there are.
#[unsafe(no_mangle)]
pub extern "C" fn trend_filter_crossings(
    level: f64,
    trend: &[f64],
    list: &mut [u32],
    found: &mut [u64; 1],
) -> u32
    ensures { CrossingsTold level trend.now result list.old list.new found.old found.new }
{
    trend_filter::c::trend_filter_crossings(level, trend, list, found)
}

// The knot nearest a place of the trend: found is 1 and the knot, or 0 and 0 where there is none.
#[unsafe(no_mangle)]
pub extern "C" fn trend_filter_nearest_knot(
    place: u64,
    trend: &[f64],
    knots: &[u32],
    found: &mut [u64; 2],
) -> u32
    ensures { KnotTold (nearest_knot place (length trend.now) knots.now) result found.old found.new }
{
    trend_filter::c::trend_filter_nearest_knot(place, trend, knots, found)
}
