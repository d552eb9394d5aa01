// Stored answers: words of 8 bytes, the lowest first, and whether numbers are the ones stored from a word on.
#![tactic(auto)]

ghost use Rattle.std.specs.Prelude.{◌≡◌, ◌+◌, ◌≤◌, ◌<◌, ℕ, length, get_or};
ghost use Rattle.std.specs.Float.{binary64, nan};
ghost use Rattle.std.specs.Float.Ieee.{to_bits};
ghost use Rattle.vectors.specs.Vec.{put};
ghost use Rattle.stored.specs.Words.{word_at, count_at, doubles_at, same_to, same_places, past_at, lent_at, Within};

// Word i; 0 beyond the end.
#[tactic(auto, unfolding(crate::specs::Words::word_at))]
pub fn word(s: &[u8; 131072], i: usize) -> u64
    ensures { result ≡ word_at s.now i }
{
    if i < 16384 {
        framing::eight(s, 8 * i)
    } else {
        0
    }
}

// Word i as a count, at most `most`.
#[tactic(auto, unfolding(crate::specs::Words::count_at))]
pub fn count_at(s: &[u8; 131072], i: usize, most: usize) -> usize
    ensures { (result ≡ count_at s.now i most) × (result ≤ most) }
{
    word(s, i).min(most as u64) as usize
}

// The first n places of y become the doubles stored from word a on.
pub fn load(y: &mut [f64], s: &[u8; 131072], a: usize, n: usize)
    requires { (n ≤ length y.old) × (a + n ≤ 65536) }
    ensures { y.new ≡ put y.old 0 (doubles_at s.now a n) }
{
    for (i, x) in y[..n].iter_mut().enumerate() {
        *x = float64::double(word(s, a + i));
    }
}

// A value that is stored as one word. In proofs, `beyond` is what is read past a slice's end.
pub trait Stored: Copy {
    ghost word_of: { Self → ℕ };

    ghost beyond: { Self };

    fn as_word(self) -> u64
        ensures { result ≡ word_of self };
}

// A double is stored by its bits.
impl Stored for f64 {
    ghost word_of = { to_bits binary64 };

    ghost beyond = { nan };

    fn as_word(self) -> u64 {
        float64::pattern(self)
    }
}

impl Stored for u64 {
    ghost word_of = { λ n. n };

    ghost beyond = { 0 };

    fn as_word(self) -> u64 {
        self
    }
}

impl Stored for u32 {
    ghost word_of = { λ n. n };

    ghost beyond = { 0 };

    fn as_word(self) -> u64 {
        u64::from(self)
    }
}

// Whether the values are the words from a on.
pub fn same_words<T: Stored>(x: &[T], s: &[u8; 131072], a: usize) -> bool
    requires { a + length x.now ≤ 65536 }
    ensures { result ≡ same_to (λ i. T.word_of (get_or x.now i T.beyond)) s.now a (length x.now) }
{
    for (i, v) in x.iter().enumerate() {
        if v.as_word() != word(s, a + i) {
            return false;
        }
    }
    true
}

// Whether the places of a fit are the words from a on: its trend, its cycle, its knots, its dual point.
#[tactic(auto, unfolding(crate::specs::Words::same_places))]
pub fn same_places(
    trend: &[f64],
    cycle: &[f64],
    knots: &[u32],
    dual: &[f64],
    s: &[u8; 131072],
    a: usize,
) -> bool
    requires trend_len_bound { (length trend.now ≤ 168) × (length cycle.now ≤ 168) × (length knots.now ≤ 168) × (length dual.now ≤ 168) }
    requires a_bound { a < 32768 }
    ensures { result ≡ same_places trend.now cycle.now knots.now dual.now s.now a }
{
    let n = trend.len();
    same_words(trend, s, a)
        && same_words(cycle, s, a + n)
        && same_words(knots, s, a + 2 * n)
        && same_words(dual, s, a + 2 * n + knots.len())
}

// The word past the answer that is stored from word a on, of a series of n with m differences.
#[tactic(auto, unfolding(crate::specs::Words::past_at))]
pub fn past(s: &[u8; 131072], a: usize, n: usize, m: usize) -> usize
    requires { (n ≤ 168) × (m ≤ 168) × (a < 32768) }
    ensures { (result ≡ past_at s.now a n m) × (result ≤ 40000) }
{
    if word(s, a) == 0 {
        a + 11 + 2 * n + count_at(s, a + 6, 168) + m
    } else {
        a + 1
    }
}

// The lengths of a series and of what is lent with it, cut where the buffers of a week end.
#[derive(Clone, Copy)]
pub struct Lengths {
    pub n: usize,
    pub trend: usize,
    pub cycle: usize,
    pub knots: usize,
    pub dual: usize,
    pub work: usize,
    pub marks: usize,
}

// The lengths of the case that starts at word a.
#[tactic(auto, unfolding(crate::specs::Words::lent_at))]
pub fn lent_at(s: &[u8; 131072], a: usize) -> Lengths
    requires { a < 65536 }
    ensures { (result ≡ lent_at s.now a) × Within result }
{
    Lengths {
        n: count_at(s, a + 3, 168),
        trend: count_at(s, a + 4, 168),
        cycle: count_at(s, a + 5, 168),
        knots: count_at(s, a + 6, 168),
        dual: count_at(s, a + 7, 168),
        work: count_at(s, a + 8, 6720),
        marks: count_at(s, a + 9, 336),
    }
}
