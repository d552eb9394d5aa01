// The solution of a banded system from its factor and the right side carried forward: division by the pivots, and back. Then both in one call.
#![tactic(auto)]

ghost use Rattle.std.specs.Prelude.{◌≡◌, ◌≤◌, ◌+◌, ◌*◌, min, length};
ghost use Rattle.float64.specs.Ops.{◌⊘◌};
ghost use Rattle.vectors.specs.Vec.{at};
ghost use Rattle.banded.specs.Solve.{back_at};
ghost use Rattle.banded.specs.Run.{of_run, HasRow};
ghost use Rattle.substitution.specs.Solved.{Fits, Stretch, Carried, Substituted, Solved};

// Place i of the solution, from the places after it.
fn back_at(s: &[f64], k: usize, m: usize, i: usize) -> f64
    requires { HasRow k m i (length s.now) }
    ensures { result ≡ back_at k (of_run k s.now) (λ r. at s.now (m * (k + 1) + r))
        (at s.now (m * (k + 1) + i) ⊘ of_run k s.now i i) i m }
{
    let b = m * (k + 1);
    let d = banded::get(s, k + 1, i, k);
    let mut v = s[b + i] / d;
    for t in 0..k.min(m - (i + 1)) {
        let r = i + 1 + t;
        let a = banded::get(s, k + 1, r, k - (t + 1));
        v = v - a * s[b + r];
    }
    v
}

// At any order, once the last `from` places are done: up to the last `to`.
fn back_any(s: &mut [f64], k: usize, m: usize, from: usize, to: usize)
    requires { Stretch k m from to (length s.old) }
    ensures { Carried k m from to s.old s.new }
{
    let b = m * (k + 1);
    for i in (m - to..m - from).rev() {
        s[b + i] = back_at(s, k, m, i);
    }
}

// At order 1, from the last place but one on.
fn back1(s: &mut [f64], m: usize)
    requires { Fits 1 m (length s.old) }
    ensures { Carried 1 m 1 m s.old s.new }
{
    let b = m * 2;
    let mut x = s[b + (m - 1)];
    for i in (0..m - 1).rev() {
        let p = i * 2;
        let q = b + i;
        x = s[q] / s[p + 1] - s[p + 2] * x;
        s[q] = x;
    }
}

// At order 2, from the last place but two on.
fn back2(s: &mut [f64], m: usize)
    requires { (2 ≤ m) × Fits 2 m (length s.old) }
    ensures { Carried 2 m 2 m s.old s.new }
{
    let b = m * 3;
    let mut x1 = s[b + (m - 2)];
    let mut x2 = s[b + (m - 1)];
    for i in (0..m - 2).rev() {
        let p = i * 3;
        let q = b + i;
        let x = s[q] / s[p + 2] - s[p + 4] * x1 - s[p + 6] * x2;
        s[q] = x;
        x2 = x1;
        x1 = x;
    }
}

// The places that are left after the last n.
fn back_rest(s: &mut [f64], k: usize, m: usize, n: usize)
    requires { Fits k m (length s.old) × (n ≡ min k m) }
    ensures { Carried k m n m s.old s.new }
{
    if n == m {
        return;
    }
    if k == 1 {
        back1(s, m);
        return;
    }
    if k == 2 {
        back2(s, m);
        return;
    }
    back_any(s, k, m, n, m);
}

// The right side after the m rows of a factor that s begins with, divided by the pivots and carried back.
pub fn solve(s: &mut [f64], k: usize, m: usize)
    requires { Fits k m (length s.old) }
    ensures { Substituted k m s.old s.new }
{
    let n = k.min(m);
    back_any(s, k, m, 0, n);
    back_rest(s, k, m, n);
}

// The system that stands from place p of s on, factored and solved in its place. A bad pivot ends it.
pub fn factor_solve_at(s: &mut [f64], p: usize, k: usize, m: usize) -> bool
    requires { (1 ≤ m) × (p + (m * (k + 1) + m) ≤ length s.old) }
    ensures { Solved p k m s.old s.new result }
{
    let e = p + (m * (k + 1) + m);
    if !elimination::factor(&mut s[p..e], k, m) {
        return false;
    }
    solve(&mut s[p..e], k, m);
    true
}
