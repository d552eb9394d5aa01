// What is written of a trend: itself, its cycle and its knots.
#![tactic(auto)]

ghost use Rattle.std.specs.Prelude.{◌≡◌, ◌≤◌, length};
ghost use Rattle.float64.specs.Helpers.{abs_of};
ghost use Rattle.vectors.specs.Vec.{at, put};
ghost use Rattle.vectors.specs.Parts.{Wrote};
ghost use Rattle.vectors.specs.Sums.{max_to, max_abs};
ghost use Rattle.differences.specs.Diff.{diff_k};
ghost use Rattle.certificate.specs.Certificate.{minus};
ghost use Rattle.differences.specs.Series.{Series};
ghost use Rattle.decomposition.specs.Knots.{threshold, knots as knotsOf};
ghost use Rattle.decomposition.specs.Written.{decomposed, KnotPlaces, Places, WroteOut};

// The greatest |D y| and the greatest |y|, from 0; NaN is ignored.
#[derive(Clone, Copy)]
struct Peaks {
    differences: f64,
    values: f64,
}

// The greatest |y|, where top is that of the places below from.
fn max_rest(y: &[f64], from: usize, top: f64) -> f64
    requires { from ≤ length y.now }
    ensures { top ≡ max_to (λ j. abs_of (at y.now j)) from → result ≡ max_abs y.now }
{
    let mut top = top;
    for x in &y[from..] {
        top = float64::max(top, float64::abs(*x));
    }
    top
}

// Both, side by side as far as D y goes.
fn greatest(y: &[f64], k: usize) -> Peaks
    requires { Series k (length y.now) }
    ensures { (result.differences ≡ max_abs (diff_k k y.now)) × (result.values ≡ max_abs y.now) }
{
    let m = y.len() - k;
    let mut a = 0.0;
    let mut b = 0.0;
    for i in 0..m {
        a = float64::max(a, float64::abs(differences::diff_at(y, k, i)));
        b = float64::max(b, float64::abs(y[i]));
    }
    Peaks {
        differences: a,
        values: max_rest(y, m, b),
    }
}

// Above this a difference of the trend is a knot.
fn threshold(y: &[f64], k: usize) -> f64
    requires { Series k (length y.now) }
    ensures { result ≡ threshold k y.now }
{
    let p = greatest(y, k);
    float64::max(1e-6 * p.differences, 1e-12 * p.values)
}

// The first places of knots become the knots of the trend x of y; how many there are.
fn find_knots(knots: &mut [u32], x: &[f64], y: &[f64], k: usize) -> usize
    requires { KnotPlaces k (length y.now) (length x.now) (length knots.old) }
    ensures { Wrote knots.old 0 (knotsOf k y.now (diff_k k x.now)) knots.new result }
{
    let t = threshold(y, k);
    let m = x.len() - k;
    let mut n = 0;
    for i in 0..m {
        let size = float64::abs(differences::diff_at(x, k, i));
        n = vectors::add_place(knots, n, i, t < size);
    }
    n
}

// The first places of c become y - x.
fn minus_into(c: &mut [f64], y: &[f64], x: &[f64])
    requires { (length y.now ≤ length x.now) × (length y.now ≤ length c.old) }
    ensures { c.new ≡ put c.old 0 (minus y.now x.now) }
{
    for i in 0..y.len() {
        c[i] = y[i] - x[i];
    }
}

// x, y - x and the knots of x in the first places of trend, cycle and knots; how many knots there are.
pub fn write_out(
    trend: &mut [f64],
    cycle: &mut [f64],
    knots: &mut [u32],
    y: &[f64],
    x: &[f64],
    k: usize,
) -> usize
    requires { Places k y.now x.now (decomposed trend.old cycle.old knots.old) }
    ensures { WroteOut k y.now x.now result
        (decomposed trend.old cycle.old knots.old) (decomposed trend.new cycle.new knots.new) }
{
    vectors::copy(trend, x);
    minus_into(cycle, y, x);
    find_knots(knots, x, y, k)
}
