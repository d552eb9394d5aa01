// The trend of a series: the questions and the preparation, then the fit of what is prepared, each once (crate prepared_fit).
#![tactic(auto)]

pub mod c;

ghost use Rattle.std.specs.Prelude.{◌≡◌};
ghost use Rattle.questions.specs.Asking.{asking};
ghost use Rattle.questions.specs.Refusals.{numbered};
ghost use Rattle.trend_filter.specs.Answers.{summed, buffers, Answered};

use prepared_fit::Tally;
use questions::Refusal;
use search::Reason;

// penalty 1 is L1, 2 is L2.
#[derive(Clone, Copy)]
pub struct TrendFilterOptions {
    pub order: u32,
    pub penalty: u32,
    pub tol: f64,
    pub max_iter: u64,
}

#[derive(Clone, Copy)]
pub struct Summary {
    pub knots: usize,
    pub lam_max: f64,
    pub gap: f64,
    pub first_gap: f64,
    pub best_gap: f64,
    pub objective: f64,
    pub n_iter: u64,
    pub improvements: u64,
    pub converged: bool,
    pub reason: Reason,
}

// What a caller is told of a fit.
fn summed(t: Tally, lam_max: f64) -> Summary
    ensures { result ≡ summed t.numbers t.knots lam_max }
{
    let s = t.numbers;
    Summary {
        knots: t.knots,
        lam_max: lam_max,
        gap: s.gap,
        first_gap: s.first_gap,
        best_gap: s.best_gap,
        objective: s.objective,
        n_iter: s.n_iter,
        improvements: s.improvements,
        converged: s.converged,
        reason: s.reason,
    }
}

// The trend, the cycle, the knots and the dual point of y, and the numbers of the fit; or why it is refused. work and marks are scratch.
pub fn l1_trend_filter(
    y: &[f64],
    lam: f64,
    opts: TrendFilterOptions,
    trend: &mut [f64],
    cycle: &mut [f64],
    knots: &mut [u32],
    dual: &mut [f64],
    work: &mut [f64],
    marks: &mut [u32],
) -> Result<Summary, Refusal>
    ensures { Answered (asking y.now lam opts.tol opts.max_iter opts.order opts.penalty) (numbered result)
        (buffers trend.old cycle.old knots.old dual.old work.old marks.old)
        (buffers trend.new cycle.new knots.new dual.new work.new marks.new) }
{
    let lam_max = prepared_fit::begin(
        work,
        y,
        lam,
        opts.tol,
        opts.max_iter,
        opts.order,
        opts.penalty,
        trend.len(),
        cycle.len(),
        knots.len(),
        dual.len(),
        marks.len(),
    )?;
    let t = prepared_fit::fit_prepared(
        trend,
        cycle,
        knots,
        dual,
        work,
        marks,
        y,
        lam,
        opts.tol,
        opts.max_iter,
        opts.order as usize,
        opts.penalty,
        lam_max,
    )
    .ok_or(Refusal::BadPivot)?;
    Ok(summed(t, lam_max))
}
