// The pass of the certificate: the trend of a dual point, and its sums.
#![tactic(auto)]

ghost use Rattle.std.specs.Prelude.{◌≡◌, List, ℕ, ◌≤◌, ◌<◌, ◌-◌, ◌+◌, length, Float};
ghost use Rattle.vectors.specs.Vec.{at};
ghost use Rattle.differences.specs.Diff.{diff_k};
ghost use Rattle.differences.specs.Series.{Order, Series};
ghost use Rattle.certificate.specs.Run.{Trend, Last, Ahead, Falls, Passed, Beside, Summed};

// Σ(D'z)², Σ|D x| and z·D y, of the places passed so far.
#[derive(Clone, Copy)]
pub struct Sums {
    pub squares: f64,
    pub dx: f64,
    pub dot: f64,
}

// The first k places of s become those of the trend y - D'z, where z stands after n places; the sum of the squares of D'z there.
fn head(s: &mut [f64], y: &[f64], k: usize) -> f64
    requires { Series k (length y.now) × (length y.now + (length y.now - k) ≤ length s.old) }
    ensures { Trend k y.now s.old s.new k result }
{
    let n = y.len();
    let e = n + (n - k);
    let mut a = 0.0;
    for j in 0..k {
        let d = differences::diff_t_at(&s[n..e], k, j);
        s[j] = y[j] - d;
        a += d * d;
    }
    a
}

// The last place of D x, where x ends with x2, x1, v. x2 is not used for order 1.
fn jump(k: usize, v: f64, x1: f64, x2: f64) -> f64
    requires { Order k }
    ensures { (x : List Float) (j : ℕ) → k ≤ j → j < length x → v ≡ at x j → Last k x j x1 x2 → result ≡ at (diff_k k x) (j - k) }
{
    if k == 1 { v - x1 } else { (v - x1) - (x1 - x2) }
}

// The places of the trend from `from` up to `to`, with what they add to the sums c. fall gives a place of D'z there, and the closure of each call gets a loop of its own.
fn pass<F: Fn(&[f64], usize) -> f64>(
    s: &mut [f64],
    y: &[f64],
    dy: &[f64],
    k: usize,
    from: usize,
    to: usize,
    c: Sums,
    fall: F,
) -> Sums
    requires ahead { Ahead k (length y.now) (length s.old) (length dy.now) from to }
    requires falls { Falls F.Fn fall k (length y.now - k) from to }
    ensures { (s₀ : List Float) → Passed k y.now dy.now s₀ s.old from c → Passed k y.now dy.now s₀ s.new to result }
{
    let n = y.len();
    let e = n + (n - k);
    let mut a = c.squares;
    let mut b = c.dx;
    let mut g = c.dot;
    let mut x1 = s[from - 1];
    let mut x2 = s[from - k];
    for j in from..to {
        let d = fall(&s[n..e], j);
        let v = y[j] - d;
        s[j] = v;
        a += d * d;
        b += float64::abs(jump(k, v, x1, x2));
        g += s[n + j - k] * dy[j - k];
        x2 = x1;
        x1 = v;
    }
    Sums {
        squares: a,
        dx: b,
        dot: g,
    }
}

// The first n places of s become the trend, and all its sums.
pub fn passes(s: &mut [f64], y: &[f64], dy: &[f64], k: usize) -> Sums
    requires { Beside k (length y.now) (length s.old) (length dy.now) }
    ensures { Summed k y.now dy.now s.old s.new result }
{
    let n = y.len();
    let m = n - k;
    let h = head(s, y, k);
    let c = Sums {
        squares: h,
        dx: 0.0,
        dot: 0.0,
    };
    if m <= k {
        return pass(s, y, dy, k, k, n, c, |z, j| differences::diff_t_at(z, k, j));
    }
    let d = pass(
        s,
        y,
        dy,
        k,
        k,
        m,
        c,
        |z, j| differences::diff_t_inner(z, k, j),
    );
    pass(s, y, dy, k, m, n, d, |z, j| differences::diff_t_at(z, k, j))
}
