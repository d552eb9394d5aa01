// The outcome of a fit, compared with what is stored.
#![tactic(auto)]

ghost use Rattle.std.specs.Prelude.{◌≡◌, ◌≤◌, ◌<◌, length};
ghost use Rattle.questions.specs.Asking.{asking};
ghost use Rattle.questions.specs.Refusals.{numbered};
ghost use Rattle.trend_filter.specs.Answers.{buffers};
ghost use Rattle.compared.specs.Outcomes.{same_summary, same_fit, Compares};
ghost use Rattle.compared.specs.Inner.{same_answer, Room};

use questions::Refusal;
use trend_filter::{Summary, TrendFilterOptions, l1_trend_filter};

// Whether the numbers of a fit are the words from a on.
#[tactic(auto, unfolding(crate::specs::Outcomes::same_summary))]
fn same_summary(f: Summary, s: &[u8; 131072], a: usize) -> bool
    requires { a < 32768 }
    ensures { result ≡ same_summary f s.now a }
{
    let numbers = [f.lam_max, f.gap, f.first_gap, f.best_gap, f.objective];
    let counts = [
        f.knots as u64,
        f.n_iter,
        f.improvements,
        u64::from(f.converged),
        u64::from(f.reason),
    ];
    stored::same_words(&numbers, s, a) && stored::same_words(&counts, s, a + 5)
}

// Whether a fit is the one that is stored from word a on.
#[tactic(auto, unfolding(crate::specs::Outcomes::same_fit))]
fn same_fit(
    f: Summary,
    trend: &[f64],
    cycle: &[f64],
    knots: &[u32],
    dual: &[f64],
    s: &[u8; 131072],
    a: usize,
) -> bool
    requires trend_len_bound { (length trend.now ≤ 168) × (length cycle.now ≤ 168) × (length knots.now ≤ 168) × (length dual.now ≤ 168) }
    requires a_bound { a < 32000 }
    ensures { result ≡ same_fit f trend.now cycle.now knots.now dual.now s.now a }
{
    stored::word(s, a) == 0
        && same_summary(f, s, a + 1)
        && stored::same_places(trend, cycle, knots, dual, s, a + 11)
}

// Whether an answer is the one that is stored from word a on; the places of a fit of n, with m differences, stand first in the slices.
#[tactic(auto, unfolding(crate::specs::Inner::same_answer))]
fn same_answer(
    r: Result<Summary, Refusal>,
    n: usize,
    m: usize,
    trend: &[f64],
    cycle: &[f64],
    knots: &[u32],
    dual: &[f64],
    s: &[u8; 131072],
    a: usize,
) -> bool
    requires room { Room (numbered r) n m (length trend.now) (length cycle.now) (length knots.now) (length dual.now) }
    requires a_bound { a < 32000 }
    ensures { result ≡ same_answer (numbered r) n m trend.now cycle.now knots.now dual.now s.now a }
{
    match r {
        Err(q) => u64::from(u32::from(q)) == stored::word(s, a),
        Ok(f) => same_fit(
            f,
            &trend[..n],
            &cycle[..n],
            &knots[..f.knots],
            &dual[..m],
            s,
            a,
        ),
    }
}

// Fits y with these buffers: whether the outcome is the one that is stored from word a on.
pub fn same_outcome(
    y: &[f64],
    lam: f64,
    opts: TrendFilterOptions,
    trend: &mut [f64],
    cycle: &mut [f64],
    knots: &mut [u32],
    dual: &mut [f64],
    work: &mut [f64],
    marks: &mut [u32],
    s: &[u8; 131072],
    a: usize,
) -> bool
    requires { (length y.now ≤ 168) × (a < 32000) }
    ensures { Compares (asking y.now lam opts.tol opts.max_iter opts.order opts.penalty) result
        (buffers trend.old cycle.old knots.old dual.old work.old marks.old)
        (buffers trend.new cycle.new knots.new dual.new work.new marks.new)
        s.now a }
{
    let n = y.len();
    let m = n.saturating_sub(opts.order as usize);
    let r = l1_trend_filter(y, lam, opts, trend, cycle, knots, dual, work, marks);
    same_answer(r, n, m, trend, cycle, knots, dual, s, a)
}
