// The direction of a Newton step from a dual point, and the step cap. A point stands in a run as z, mu1, mu2, m places each.
#![tactic(auto)]

ghost use Rattle.std.specs.Prelude.{◌≡◌, false, ◌≤◌, ◌+◌, length, Float};
ghost use Rattle.std.specs.Float.Ieee.{is_nan};
ghost use Rattle.vectors.specs.Vec.{at, list};
ghost use Rattle.vectors.specs.Parts.{Kept, part};
ghost use Rattle.dual_point.specs.Places.{point};
ghost use Rattle.direction.specs.Direction.{step_cap_by, step_cap_to};
ghost use Rattle.direction.specs.Places.{Edge, Lane, Directed};

// The lesser of step and the step at which mu is left at a hundredth, if it falls: document 01's min, of which a number on the left leaves one comparison.
fn cap_of(step: f64, mu: f64, dmu: f64) -> f64
    requires { is_nan step ≡ false }
    ensures { (result ≡ step_cap_by step mu dmu) × (is_nan result ≡ false) }
{
    if dmu < 0.0 {
        let q = 0.99 * (-mu / dmu);
        if q < step { q } else { step }
    } else {
        step
    }
}

// A number e of which 0.99·e is no less than the step: 1.02 times the step, or infinity where that does not do. Where e·(-dmu) is below mu, mu caps no step.
fn edge_of(step: f64) -> f64
    requires { is_nan step ≡ false }
    ensures { Edge step result }
{
    let e = 1.02 * step;
    if step <= 0.99 * e { e } else { f64::INFINITY }
}

// A step and an edge of it.
#[derive(Clone, Copy)]
struct Edged {
    step: f64,
    edge: f64,
}

// The step capped by mu. It divides only where mu is not past the edge.
fn capped(c: Edged, mu: f64, dmu: f64) -> Edged
    requires { (is_nan c.step ≡ false) × Edge c.step c.edge }
    ensures { (result.step ≡ step_cap_by c.step mu dmu) × (is_nan result.step ≡ false) × Edge result.step result.edge }
{
    if c.edge * -dmu < mu {
        return c;
    }
    let step = cap_of(c.step, mu, dmu);
    let edge = edge_of(step);
    Edged { step, edge }
}

// The greatest step, for the point in s and the direction from b on.
fn cap(s: &[f64], b: usize, m: usize) -> f64
    requires { (m + m + m ≤ b) × (b + m + m + m ≤ length s.now) }
    ensures { result ≡ step_cap_to (point 0 m s.now) (point b m s.now) m }
{
    let mut c = Edged {
        step: 1.0,
        edge: edge_of(1.0),
    };
    for i in 0..m {
        let x = capped(c, s[m + i], s[b + m + i]);
        c = capped(x, s[m + m + i], s[b + m + m + i]);
    }
    c.step
}

// How the multipliers that stand from c on move, m places from b + c on; dmu gives it from z, the multiplier and dz, which stands from b on.
fn fill_dmu<F: Fn(f64, f64, f64) -> f64>(s: &mut [f64], b: usize, c: usize, m: usize, dmu: F)
    requires lane { Lane m c b (length s.old) }
    requires callable { F.IsAlwaysCallable dmu }
    ensures moved { (f : Float → Float → Float → Float) → ((z mu dz r : Float) → F.post dmu z mu dz r → r ≡ f z mu dz)
        → part (b + c) m s.new ≡ list m (λ i. f (at s.old i) (at s.old (c + i)) (at s.old (b + i))) }
    ensures kept { Kept (b + c) m s.old s.new }
{
    for i in 0..m {
        s[b + c + i] = dmu(s[i], s[c + i], s[b + i]);
    }
}

// The whole direction, whose dz stands from b on, and the greatest step.
pub fn directions(s: &mut [f64], b: usize, lam: f64, inv_t: f64, m: usize) -> f64
    requires { (m + m + m ≤ b) × (b + m + m + m ≤ length s.old) }
    ensures { Directed lam inv_t b m s.old s.new result }
{
    fill_dmu(
        s,
        b,
        m,
        m,
        |z, mu, dz| -(mu + (inv_t + dz * mu) / (z - lam)),
    );
    fill_dmu(
        s,
        b,
        m + m,
        m,
        |z, mu, dz| -(mu + (inv_t - dz * mu) / (-z - lam)),
    );
    cap(s, b, m)
}
