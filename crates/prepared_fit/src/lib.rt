// The questions and the preparation of a series; then the fit of a prepared series: its path, and what is written of it.
#![tactic(auto)]

ghost use Rattle.std.specs.Prelude.{length};
ghost use Rattle.decomposition.specs.Written.{decomposed, WroteOut};
ghost use Rattle.questions.specs.Asking.{asking, lending};
ghost use Rattle.questions.specs.Refusals.{numbered};
ghost use Rattle.fit.specs.Outputs.{outputs};
ghost use Rattle.closed_paths.specs.Trends.{trend_of};
ghost use Rattle.prepared_fit.specs.Begun.{Begins};
ghost use Rattle.prepared_fit.specs.Fitted.{AsksOut, AsksFit, Fitted};

use closed_paths::Trend;
use fit::Numbers;
use questions::Refusal;

// The questions, then the preparation at the start of work; lam_max of the series. trend, cycle, knots, dual and marks are the lengths lent.
pub fn begin(
    work: &mut [f64],
    y: &[f64],
    lam: f64,
    tol: f64,
    max_iter: u64,
    order: u32,
    penalty: u32,
    trend: usize,
    cycle: usize,
    knots: usize,
    dual: usize,
    marks: usize,
) -> Result<f64, Refusal>
    ensures { Begins (asking y.now lam tol max_iter order penalty) (lending trend cycle knots dual (length work.old) marks)
        work.old work.new (numbered result) }
{
    questions::question(
        y,
        lam,
        tol,
        max_iter,
        order,
        penalty,
        trend,
        cycle,
        knots,
        dual,
        work.len(),
        marks,
    )?;
    gram::prepare(work, y, order as usize).ok_or(Refusal::BadPivot)
}

// A fit's numbers, and how many knots there are.
#[derive(Clone, Copy)]
pub struct Tally {
    pub knots: usize,
    pub numbers: Numbers,
}

// The trend where it stands, its cycle and its knots in the first places of trend, cycle and knots; how many knots there are.
fn write_found<'a>(
    trend: &mut [f64],
    cycle: &mut [f64],
    knots: &mut [u32],
    y: &'a [f64],
    work: &'a [f64],
    t: Trend,
    k: usize,
) -> usize
    requires { AsksOut k y.now work.now t (decomposed trend.old cycle.old knots.old) }
    ensures { WroteOut k y.now (trend_of y.now work.now t) result
        (decomposed trend.old cycle.old knots.old) (decomposed trend.new cycle.new knots.new) }
{
    let x = paths::trend_of(y, work, t);
    decomposition::write_out(trend, cycle, knots, y, x, k)
}

// The path of a prepared series, and what is written of it; None where a pivot of it is bad.
pub fn fit_prepared(
    trend: &mut [f64],
    cycle: &mut [f64],
    knots: &mut [u32],
    dual: &mut [f64],
    work: &mut [f64],
    marks: &mut [u32],
    y: &[f64],
    lam: f64,
    tol: f64,
    max_iter: u64,
    k: usize,
    penalty: u32,
    lam_max: f64,
) -> Option<Tally>
    requires { AsksFit k penalty y.now lam_max (outputs trend.old cycle.old knots.old dual.old) work.old marks.old }
    ensures { Fitted (asking y.now lam tol max_iter k penalty) result
        (outputs trend.old cycle.old knots.old dual.old) (outputs trend.new cycle.new knots.new dual.new)
        work.old work.new marks.old marks.new }
{
    let f = paths::take_path(
        work, marks, cycle, dual, y, lam, tol, max_iter, k, penalty, lam_max,
    )?;
    let count = write_found(trend, cycle, knots, y, work, f.trend, k);
    Some(Tally {
        knots: count,
        numbers: f.numbers,
    })
}
