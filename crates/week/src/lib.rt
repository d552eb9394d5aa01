// One week: from the bytes of its file to the bytes of its listing.
#![tactic(auto)]

ghost use Rattle.std.specs.Prelude.{◌≡◌, ◌≤◌, length};
ghost use Rattle.vectors.specs.Parts.{Wrote};
ghost use Rattle.io.specs.Counts.{IsPrefixLen};
ghost use Rattle.week.specs.Shown.{shown};
ghost use Rattle.week.specs.Week.{fit_text, week_text};

use listing::Shown;
use records::Settings;
use trend_filter::{Summary, TrendFilterOptions};

// What is shown of the fit of n hours under their settings.
fn shown(st: Settings, n: usize, s: Summary) -> Shown
    ensures { result ≡ shown st n s }
{
    Shown {
        n,
        order: st.order,
        penalty: st.penalty,
        n_iter: s.n_iter,
        improvements: s.improvements,
        converged: s.converged,
        reason: s.reason,
        lam_max: s.lam_max,
        gap: s.gap,
        objective: s.objective,
        knots: s.knots,
    }
}

// Fits the series under its settings and writes its listing, with the position of each hour, or its refusal: answers how many bytes that is.
fn fit_week(y: &[f64], positions: &[u32], st: Settings, out: &mut [u8; 16384]) -> usize
    requires { (length y.now ≤ 168) × (length positions.now ≡ length y.now) }
    ensures { Wrote out.old 0 (fit_text st y.now positions.now) out.new result }
{
    let mut trend = [0.0f64; 168];
    let mut cycle = [0.0f64; 168];
    let mut knots = [0u32; 168];
    let mut dual = [0.0f64; 168];
    let mut work = [0.0f64; 6720];
    let mut marks = [0u32; 336];
    let opts = TrendFilterOptions {
        order: st.order,
        penalty: st.penalty,
        tol: st.tol,
        max_iter: st.max_iter,
    };
    match trend_filter::l1_trend_filter(
        y, st.lam, opts, &mut trend, &mut cycle, &mut knots, &mut dual, &mut work, &mut marks,
    ) {
        Err(refusal) => listing::put_refused(out, u32::from(refusal)),
        Ok(s) => {
            let f = shown(st, y.len(), s);
            listing::put_listing(out, f, positions, &trend, &cycle, &knots)
        }
    }
}

// The weekly program, from its input to what it prints, at the start of out: answers how many bytes that is.
pub fn weekly(input: &[u8], out: &mut [u8; 16384]) -> usize
    ensures wrote { Wrote out.old 0 (week_text input.now) out.new result }
    ensures prefix_len { IsPrefixLen result out.new }
{
    let mut y = [0.0f64; 168];
    let mut positions = [0u32; 168];
    match series::read_week(input, &mut y, &mut positions) {
        Err(why) => listing::put_refused(out, u32::from(why)),
        Ok(week) => fit_week(&y[..week.n], &positions[..week.n], week.settings, out),
    }
}
