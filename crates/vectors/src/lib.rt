// The greatest size of a vector, whether it lies within a bound, a copy of one, and a list of places made longer.
#![tactic(auto)]

ghost use Rattle.std.specs.Prelude.{◌≡◌, cond, [], ◌∷◌, ◌≤◌, ◌<◌, length};
ghost use Rattle.vectors.specs.Vec.{put};
ghost use Rattle.vectors.specs.Parts.{Kept, part, Written, Disjoint, Wrote};
ghost use Rattle.vectors.specs.Sums.{max_abs, inside};

// The greatest size, from 0; NaN is ignored.
#[tactic(auto, unfolding(crate::specs::Sums::max_to, crate::specs::Sums::max_abs))]
pub fn max_abs(v: &[f64]) -> f64
    ensures { result ≡ max_abs v.now }
{
    let mut top = 0.0;
    for x in v {
        top = float64::max(top, float64::abs(*x));
    }
    top
}

// Whether every |v| is below lam.
#[tactic(auto, unfolding(crate::specs::Sums::inside_to))]
pub fn inside(v: &[f64], lam: f64) -> bool
    ensures { result ≡ inside lam v.now }
{
    let mut all = true;
    for x in v {
        all &= float64::abs(*x) < lam;
    }
    all
}

// The places from a up to e become v.
pub fn fill(s: &mut [f64], a: usize, e: usize, v: f64)
    requires { (a ≤ e) × (e ≤ length s.old) }
    ensures { Written a e (λ j. v) s.old s.new }
{
    s[a..e].fill(v);
}

// The first places of t become those of x.
pub fn copy(t: &mut [f64], x: &[f64])
    requires { length x.now ≤ length t.old }
    ensures { t.new ≡ put t.old 0 x.now }
{
    for (i, v) in x.iter().enumerate() {
        t[i] = *v;
    }
}

// The n places of s from b on become those from a on; the two stretches lie apart.
pub fn copy_within(s: &mut [f64], a: usize, b: usize, n: usize)
    requires { Disjoint a b n (length s.old) }
    ensures { (part b n s.new ≡ part a n s.old) × Kept b n s.old s.new }
{
    for i in 0..n {
        s[b + i] = s[a + i];
    }
}

// i becomes the next number of list, at place n, where it is wanted; how many there are then.
pub fn add_place(list: &mut [u32], n: usize, i: usize, wanted: bool) -> usize
    requires { (n < length list.old) × (i < 65536) }
    ensures { Wrote list.old n (cond wanted (i ∷ []) []) list.new result }
{
    if wanted {
        list[n] = i as u32;
        n + 1
    } else {
        n
    }
}
