// One Newton step of the interior point search.
#![tactic(auto)]

ghost use Rattle.std.specs.Prelude.{length};
ghost use Rattle.newton_step.specs.Stepped.{Steppable, Stepped};

// With this step the point stayed, since the last trial is not inside the bounds, or moved.
#[derive(Clone, Copy)]
pub enum Step {
    Stayed(f64),
    Moved(f64),
}

// One Newton step; none where a pivot was bad. s: z, mu1, mu2; the trial's; the rows of the system; dz, dmu1, dmu2. The line search writes over the first m places of the rows.
pub fn newton_step(
    s: &mut [f64],
    dy: &[f64],
    lam: f64,
    inv_t: f64,
    g: [f64; 3],
    k: usize,
    m: usize,
) -> Option<Step>
    requires { Steppable k m (length s.old) (length dy.now) }
    ensures { Stepped k g dy.now lam inv_t 0 m s.old s.new result }
{
    let a = 6 * m;
    let b = a + m * (k + 1);
    let w = newton_sweep::newton_z(s, a, dy, lam, inv_t, g, k, m);
    if !w.good {
        return None;
    }
    let cap = direction::directions(s, b, lam, inv_t, m);
    let norm = square_root::sqrt(w.acc);
    let t = line_search::line_search(s, b, dy, lam, inv_t, g, k, m, cap, norm);
    if !t.inside {
        return Some(Step::Stayed(t.step));
    }
    vectors::copy_within(s, 3 * m, 0, 3 * m);
    Some(Step::Moved(t.step))
}
