// The rows of the Newton system of a dual point, made and stored. And what a place adds to the residual.
#![tactic(auto)]

ghost use Rattle.std.specs.Prelude.{◌≡◌, ◌-◌, length, Float};
ghost use Rattle.float64.specs.Ops.{◌⊕◌};
ghost use Rattle.vectors.specs.Parts.{part};
ghost use Rattle.differences.specs.Series.{Order};
ghost use Rattle.banded.specs.Run.{HasRow, Stored};
ghost use Rattle.gram.specs.Gram.{product};
ghost use Rattle.dual_point.specs.Places.{point};
ghost use Rattle.newton_system.specs.Newton.{diagonal_shift, rhs_at, residual_square_at};
ghost use Rattle.newton_system.specs.Rows.{besides, AtRow, RowMade};

// A row of the system: its diagonal, its right side, and what its place adds to the square of the residual.
#[derive(Clone, Copy)]
pub struct Row {
    pub diagonal: f64,
    pub right: f64,
    pub square: f64,
}

// What a place adds to the square of the residual: q is (D D') z there, inv_t is 1 / t.
pub fn residual_of(q: f64, dy: f64, z: f64, mu1: f64, mu2: f64, lam: f64, inv_t: f64) -> f64
    ensures { result ≡ residual_square_at lam inv_t q dy (record { z = z; mu1 = mu1; mu2 = mu2 }) }
{
    let f1 = z - lam;
    let f2 = -z - lam;
    let rd = q - dy + mu1 - mu2;
    let rc1 = -mu1 * f1 - inv_t;
    let rc2 = -mu2 * f2 - inv_t;
    rd * rd + rc1 * rc1 + rc2 * rc2
}

// The diagonal at a place, where g0 is that of D D'.
fn diagonal_of(z: f64, mu1: f64, mu2: f64, lam: f64, g0: f64) -> f64
    ensures { result ≡ g0 ⊕ diagonal_shift lam (record { z = z; mu1 = mu1; mu2 = mu2 }) }
{
    let f1 = z - lam;
    let f2 = -z - lam;
    g0 + (-mu1 / f1 - mu2 / f2)
}

// The right side at a place.
fn rhs_of(q: f64, dy: f64, z: f64, lam: f64, inv_t: f64) -> f64
    ensures { (mu1 mu2 : Float) → result ≡ rhs_at lam inv_t q dy (record { z = z; mu1 = mu1; mu2 = mu2 }) }
{
    let f1 = z - lam;
    let f2 = -z - lam;
    -q + dy + inv_t / f1 - inv_t / f2
}

// Row r for the point in the first 3 m places of s, where q is (D D') z at place r.
pub fn row_with(
    s: &[f64],
    dy: &[f64],
    lam: f64,
    inv_t: f64,
    g: [f64; 3],
    k: usize,
    m: usize,
    r: usize,
    q: f64,
) -> Row
    requires { AtRow k m r (length s.now) (length dy.now) × (q ≡ product k g (part 0 m s.now) r) }
    ensures { RowMade k g dy.now lam inv_t (point 0 m s.now) r result }
{
    let y = dy[r];
    let z = s[r];
    let mu1 = s[m + r];
    let mu2 = s[m + m + r];
    let diagonal = diagonal_of(z, mu1, mu2, lam, g[0]);
    let right = rhs_of(q, y, z, lam, inv_t);
    let square = residual_of(q, y, z, mu1, mu2, lam, inv_t);
    Row {
        diagonal,
        right,
        square,
    }
}

// The same, with q.
pub fn row_at(
    s: &[f64],
    dy: &[f64],
    lam: f64,
    inv_t: f64,
    g: [f64; 3],
    k: usize,
    m: usize,
    r: usize,
) -> Row
    requires { AtRow k m r (length s.now) (length dy.now) }
    ensures { RowMade k g dy.now lam inv_t (point 0 m s.now) r result }
{
    let q = gram::product(&s[0..m], g, k, r);
    row_with(s, dy, lam, inv_t, g, k, m, r, q)
}

// Row r of m rows of the system, with d on the diagonal, and x in place r of the right side after them.
pub fn put_row(s: &mut [f64], g: [f64; 3], k: usize, m: usize, r: usize, d: f64, x: f64)
    requires { Order k × HasRow k m r (length s.old) }
    ensures { Stored k m r (besides k g d) x s.old s.new }
{
    if k == 1 {
        banded::store1(s, m, r, g[1], d, x);
        return;
    }
    banded::store2(s, m, r, g[2], g[1], d, x);
}
