// A stored case, fitted again and compared with the answer that is stored with it.
#![tactic(auto)]

ghost use Rattle.std.specs.Prelude.{◌≡◌, ◌≤◌, ◌<◌, length};
ghost use Rattle.std.specs.Float.{binary64};
ghost use Rattle.std.specs.Float.Ieee.{of_bits};
ghost use Rattle.questions.specs.Asking.{asking};
ghost use Rattle.fit.specs.Fit.{fit};
ghost use Rattle.stored.specs.Words.{word_at, Within};
ghost use Rattle.compared.specs.Outcomes.{same_outcome};
ghost use Rattle.rerun.specs.Cases.{option_at, lending_of, equal_at};

use stored::Lengths;
use trend_filter::TrendFilterOptions;

// Fits y with buffers of these lengths: whether the outcome is the one that is stored from word a on.
fn fit_at(
    y: &[f64],
    l: Lengths,
    lam: f64,
    opts: TrendFilterOptions,
    s: &[u8; 131072],
    a: usize,
) -> bool
    requires within { Within l }
    requires y_len_bound { (length y.now ≤ 168) × (a < 32000) }
    ensures { result ≡ same_outcome (fit (asking y.now lam opts.tol opts.max_iter opts.order opts.penalty) (lending_of l)) s.now a }
{
    let mut trend = [0.0f64; 168];
    let mut cycle = [0.0f64; 168];
    let mut knots = [0u32; 168];
    let mut dual = [0.0f64; 168];
    let mut work = [0.0f64; 6720];
    let mut marks = [0u32; 336];
    let t = l.trend;
    let c = l.cycle;
    let k = l.knots;
    let d = l.dual;
    let w = l.work;
    let m = l.marks;
    compared::same_outcome(
        y,
        lam,
        opts,
        &mut trend[0..t],
        &mut cycle[0..c],
        &mut knots[0..k],
        &mut dual[0..d],
        &mut work[0..w],
        &mut marks[0..m],
        s,
        a,
    )
}

// Word i as an option, which is small where it is right.
fn option_at(s: &[u8; 131072], i: usize) -> u32
    ensures { result ≡ option_at s.now i }
{
    (stored::word(s, i) % 0x1_0000_0000) as u32
}

// Word i as a double.
fn double_at(s: &[u8; 131072], i: usize) -> f64
    ensures { result ≡ of_bits binary64 (word_at s.now i) }
{
    float64::double(stored::word(s, i))
}

// Whether the case that starts at word a is equal: the outcome of its fit is the one that is stored with it.
pub fn equal_at(s: &[u8; 131072], a: usize) -> bool
    requires { a < 16384 }
    ensures { result ≡ equal_at s.now a }
{
    let mut y = [0.0f64; 168];
    let l = stored::lent_at(s, a);
    let n = l.n;
    stored::load(&mut y, s, a + 13, n);
    let opts = TrendFilterOptions {
        order: option_at(s, a + 1),
        penalty: option_at(s, a + 2),
        tol: double_at(s, a + 11),
        max_iter: stored::word(s, a + 12),
    };
    let lam = double_at(s, a + 10);
    fit_at(&y[..n], l, lam, opts, s, a + 13 + n)
}
