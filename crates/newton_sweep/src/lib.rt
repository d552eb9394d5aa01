// The Newton system of a dual point swept: its rows made, factored and carried forward one after the other; and then solved.
#![tactic(auto)]

ghost use Rattle.std.specs.Prelude.{◌-◌, length};
ghost use Rattle.newton_sweep.specs.Swept.{AtSystem, AtRows, Swept, SweptOn, NewtonSolved};

// The square of the residual, and whether every pivot was good.
#[derive(Clone, Copy)]
pub struct Solved {
    pub acc: f64,
    pub good: bool,
}

// The system's rows from row `from` up to row `to`, from place a on, factored as they are made, with the right side carried forward after them; start is the residual's square so far. A bad pivot ends it.
fn rows_any(
    s: &mut [f64],
    a: usize,
    dy: &[f64],
    lam: f64,
    inv_t: f64,
    g: [f64; 3],
    k: usize,
    m: usize,
    from: usize,
    to: usize,
    start: f64,
) -> Solved
    requires { AtRows k a m from to (length s.old) (length dy.now) }
    ensures { SweptOn k g dy.now lam inv_t a m from to start s.old s.new result }
{
    let e = a + (m * (k + 1) + m);
    let mut acc = start;
    let mut r = from;
    while r < to {
        let v = newton_system::row_at(s, dy, lam, inv_t, g, k, m, r);
        newton_system::put_row(&mut s[a..e], g, k, m, r, v.diagonal, v.right);
        if !elimination::eliminate(&mut s[a..e], k, m, r) {
            return Solved { acc, good: false };
        }
        acc = acc + v.square;
        r += 1;
    }
    Solved { acc, good: true }
}

// The same away from the ends at order 1, with the pivot and the right side of the row above in locals.
fn rows1(
    s: &mut [f64],
    a: usize,
    dy: &[f64],
    lam: f64,
    inv_t: f64,
    g: [f64; 3],
    m: usize,
    start: f64,
) -> Solved
    requires { AtRows 1 a m 1 (m - 1) (length s.old) (length dy.now) }
    ensures { SweptOn 1 g dy.now lam inv_t a m 1 (m - 1) start s.old s.new result }
{
    let e = a + (m * 2 + m);
    let mut acc = start;
    let mut d = s[a + 1];
    let mut u = s[a + m * 2];
    let mut r = 1;
    while r < m - 1 {
        let q = gram::product_inner(&s[0..m], g, 1, r);
        let row = newton_system::row_with(s, dy, lam, inv_t, g, 1, m, r, q);
        let w = elimination::next1(g[1], row.diagonal, row.right, d, u);
        banded::store1(&mut s[a..e], m, r, w.left, w.pivot, w.side);
        d = w.pivot;
        u = w.side;
        if !elimination::is_good(d) {
            return Solved { acc, good: false };
        }
        acc = acc + row.square;
        r += 1;
    }
    Solved { acc, good: true }
}

// And at order 2, with those of the two rows above: d2 and d1 their pivots, l left of d1, u2 and u1 their right sides.
fn rows2(
    s: &mut [f64],
    a: usize,
    dy: &[f64],
    lam: f64,
    inv_t: f64,
    g: [f64; 3],
    m: usize,
    start: f64,
) -> Solved
    requires { AtRows 2 a m 2 (m - 2) (length s.old) (length dy.now) }
    ensures { SweptOn 2 g dy.now lam inv_t a m 2 (m - 2) start s.old s.new result }
{
    let e = a + (m * 3 + m);
    let mut acc = start;
    let mut d2 = s[a + 2];
    let mut l = s[a + 4];
    let mut d1 = s[a + 5];
    let mut u2 = s[a + m * 3];
    let mut u1 = s[a + m * 3 + 1];
    let mut r = 2;
    while r < m - 2 {
        let q = gram::product_inner(&s[0..m], g, 2, r);
        let row = newton_system::row_with(s, dy, lam, inv_t, g, 2, m, r, q);
        let w = elimination::next2(g[2], g[1], row.diagonal, row.right, d2, l, d1, u2, u1);
        banded::store2(&mut s[a..e], m, r, w.far, w.left, w.pivot, w.side);
        d2 = d1;
        l = w.left;
        d1 = w.pivot;
        u2 = u1;
        u1 = w.side;
        if !elimination::is_good(d1) {
            return Solved { acc, good: false };
        }
        acc = acc + row.square;
        r += 1;
    }
    Solved { acc, good: true }
}

// All rows away from the ends.
fn rows_inner(
    s: &mut [f64],
    a: usize,
    dy: &[f64],
    lam: f64,
    inv_t: f64,
    g: [f64; 3],
    k: usize,
    m: usize,
    start: f64,
) -> Solved
    requires { AtRows k a m k (m - k) (length s.old) (length dy.now) }
    ensures { SweptOn k g dy.now lam inv_t a m k (m - k) start s.old s.new result }
{
    if k == 1 {
        return rows1(s, a, dy, lam, inv_t, g, m, start);
    }
    rows2(s, a, dy, lam, inv_t, g, m, start)
}

// All rows from place a on; the first k and the last k apart, where there are rows between them.
fn sweep(
    s: &mut [f64],
    a: usize,
    dy: &[f64],
    lam: f64,
    inv_t: f64,
    g: [f64; 3],
    k: usize,
    m: usize,
) -> Solved
    requires { AtSystem k a m (length s.old) (length dy.now) }
    ensures { Swept k g dy.now lam inv_t a m s.old s.new result }
{
    if m <= k + k {
        return rows_any(s, a, dy, lam, inv_t, g, k, m, 0, m, 0.0);
    }
    let f = rows_any(s, a, dy, lam, inv_t, g, k, m, 0, k, 0.0);
    if !f.good {
        return f;
    }
    let w = rows_inner(s, a, dy, lam, inv_t, g, k, m, f.acc);
    if !w.good {
        return w;
    }
    rows_any(s, a, dy, lam, inv_t, g, k, m, m - k, m, w.acc)
}

// The Newton system of the point in the first 3 m places, from place a on, solved: dz stands after its rows.
pub fn newton_z(
    s: &mut [f64],
    a: usize,
    dy: &[f64],
    lam: f64,
    inv_t: f64,
    g: [f64; 3],
    k: usize,
    m: usize,
) -> Solved
    requires { AtSystem k a m (length s.old) (length dy.now) }
    ensures { NewtonSolved k g dy.now lam inv_t a m s.old s.new result }
{
    let w = sweep(s, a, dy, lam, inv_t, g, k, m);
    if !w.good {
        return w;
    }
    let e = a + (m * (k + 1) + m);
    substitution::solve(&mut s[a..e], k, m);
    w
}
