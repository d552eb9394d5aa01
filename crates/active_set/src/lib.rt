// The active set: marks of how each place is held, 0 free, 1 at lam, 2 at -lam; and the free places.
#![tactic(auto)]

pub mod system;

ghost use Rattle.std.specs.Prelude.{◌≡◌, ◌≤◌, ◌<◌, ◌+◌, length};
ghost use Rattle.vectors.specs.Vec.{KeptOf};
ghost use Rattle.dual_point.specs.Places.{point};
ghost use Rattle.active_set.specs.ActiveSet.{is_free, held_at, hold_at};
ghost use Rattle.active_set.specs.Marks.{mark_of, hold_of, Marks, Markable};

// How a place is held: not at all, at lam or at -lam.
#[derive(Clone, Copy, PartialEq, Eq)]
pub enum Hold {
    Free = 0,
    Upper = 1,
    Lower = 2,
}

// The mark of it.
impl From<Hold> for u32 {
    ghost from_gives = { λ h x. x ≡ mark_of h };

    fn from(h: Hold) -> u32
        ensures { result ≡ mark_of h }
    {
        h as u32
    }
}

// The way that a mark stands for.
impl From<u32> for Hold {
    ghost from_gives = { λ x h. h ≡ hold_of x };

    fn from(x: u32) -> Hold
        ensures { result ≡ hold_of x }
    {
        match x {
            0 => Hold::Free,
            1 => Hold::Upper,
            _ => Hold::Lower,
        }
    }
}

impl Hold {
    pub fn is_free(self) -> bool
        ensures { result ≡ is_free self }
    {
        matches!(self, Hold::Free)
    }

    // Where the place is held; 0 if it is free.
    pub fn held_value(self, lam: f64) -> f64
        ensures { result ≡ held_at lam self }
    {
        match self {
            Hold::Free => 0.0,
            Hold::Upper => lam,
            Hold::Lower => -lam,
        }
    }
}

// How place i of the point from place a of s on is held.
fn hold_at(s: &[f64], a: usize, lam: f64, m: usize, i: usize) -> Hold
    requires { (i < m) × (a + m + m + m ≤ length s.now) }
    ensures { result ≡ hold_at lam (point a m s.now) i }
{
    let z = s[a + i];
    if lam - z < s[a + m + i] {
        Hold::Upper
    } else if lam + z < s[a + m + m + i] {
        Hold::Lower
    } else {
        Hold::Free
    }
}

// Marks from n on: how each of the m places of the point from place n of s on is held. The first marks: the free places, rising; how many.
pub fn mark(s: &[f64], marks: &mut [u32], lam: f64, n: usize, m: usize) -> usize
    requires { Markable n m (length s.now) (length marks.old) }
    ensures { Marks (hold_at lam (point n m s.now)) n m marks.new result × KeptOf 0 0 (n + m) marks.old marks.new }
{
    let mut q = 0;
    for i in 0..m {
        let h = hold_at(s, n, lam, m, i);
        marks[n + i] = h.into();
        marks[q] = i as u32;
        q += usize::from(h.is_free());
    }
    q
}
