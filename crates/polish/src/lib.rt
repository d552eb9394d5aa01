// The polish: the places that the multipliers hold at a bound stay there, the others come from one more banded solve, and the candidate is certified.
#![tactic(auto)]

ghost use Rattle.std.specs.Prelude.{◌≡◌, cond, ◌≤◌, ◌<◌, ◌-◌, ◌+◌, length};
ghost use Rattle.vectors.specs.Vec.{at};
ghost use Rattle.vectors.specs.Parts.{part, Written};
ghost use Rattle.dual_point.specs.Lanes.{candidate_trend, candidate_lane, search_area};
ghost use Rattle.active_set.specs.ActiveSet.{is_free, held_at};
ghost use Rattle.active_set.specs.Marks.{held_by, Freed};
ghost use Rattle.polish.specs.Polish.{candidate_at};
ghost use Rattle.polish.specs.Places.{Fillable, Made, Polishable, Polished, wins};

use active_set::Hold;

// The gap and P of the candidate's certificate.
#[derive(Clone, Copy)]
pub struct Candidate {
    pub gap: f64,
    pub primal: f64,
}

// A place of the candidate, held as h says: where it is held, or place p of s.
fn candidate_at(s: &[f64], p: usize, h: Hold, lam: f64) -> f64
    requires { p < length s.now }
    ensures { result ≡ cond (is_free h) (at s.now p) (held_at lam h) }
{
    if h.is_free() { s[p] } else { h.held_value(lam) }
}

// The candidate, from place a on: where it is held, or the next place of the solution, which stands from b on.
fn fill_candidate(s: &mut [f64], marks: &[u32], lam: f64, b: usize, a: usize, n: usize, m: usize)
    requires { Fillable n m b a (length s.old) (length marks.now) }
    ensures { Written a (a + m) (λ j. candidate_at lam (held_by n marks.now) (part b m s.old) (j - a)) s.old s.new }
{
    let mut q = 0;
    for i in 0..m {
        let h = Hold::from(marks[n + i]);
        s[a + i] = candidate_at(s, b + q, h, lam);
        q += usize::from(h.is_free());
    }
}

// The candidate in its lane, for the q free places that the marks give; whether there is one.
fn make_candidate(
    s: &mut [f64],
    marks: &[u32],
    dy: &[f64],
    lam: f64,
    k: usize,
    n: usize,
    q: usize,
) -> bool
    requires { Freed k n marks.now (length dy.now) q × (search_area n ≤ length s.old) }
    ensures { Made k n dy.now lam marks.now q s.old s.new result }
{
    let c = 7 * n;
    if !active_set::system::settle(&mut s[c..11 * n], marks, dy, lam, k, n, q) {
        return false;
    }
    fill_candidate(s, marks, lam, c + q * (k + 1), 12 * n, n, n - k);
    true
}

// The polish of where the search ended: work holds the iterate's trend, z, mu1 and mu2, dy D y. The candidate and its trend are left in their lanes, and dual begins with the clamped candidate.
pub fn polish_l1(
    work: &mut [f64],
    dual: &mut [f64],
    marks: &mut [u32],
    y: &[f64],
    dy: &[f64],
    lam: f64,
    k: usize,
) -> Option<Candidate>
    requires { Polishable k y.now dy.now (length work.old) (length dual.old) (length marks.old) }
    ensures { Polished k y.now lam work.old work.new dual.old dual.new marks.old marks.new result }
{
    let n = y.len();
    let m = n - k;
    let q = active_set::mark(work, marks, lam, n, m);
    if !make_candidate(work, marks, dy, lam, k, n, q) {
        return None;
    }
    let c = certify::certify_l1(&mut work[11 * n..12 * n + m], dual, y, dy, lam, k);
    Some(Candidate {
        gap: c.primal - c.dual,
        primal: c.primal,
    })
}

// Whether the candidate replaces the iterate, whose gap is given: only if its gap is finite and strictly smaller.
pub fn won(q: Option<Candidate>, gap: f64) -> bool
    ensures { result ≡ wins q gap }
{
    q.is_some_and(|c| float64::is_finite(c.gap) && c.gap < gap)
}

// The iterate's trend or the candidate's, where it stands.
pub fn winner(work: &[f64], n: usize, second: bool) -> &[f64]
    requires { candidate_lane n ≤ length work.now }
    ensures { result.now ≡ cond second (part (candidate_trend n) n work.now) (part 0 n work.now) }
{
    if second {
        &work[11 * n..12 * n]
    } else {
        &work[0..n]
    }
}
