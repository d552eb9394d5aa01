// Where a trend passes a level, and the knot nearest a place. Nothing here alters a fit.
#![tactic(auto)]

ghost use Rattle.std.specs.Prelude.{◌≡◌, ◌||◌, ◌≤◌, length};
ghost use Rattle.vectors.specs.Parts.{Wrote};
ghost use Rattle.crossings.specs.Crossings.{upward, downward, crossings, unlisted, CrossingsListed};
ghost use Rattle.crossings.specs.Nearest.{nearer, nearest_in, nearest_knot};
ghost use Rattle.crossings.specs.Refusals.{refusal_number, refusal_in, numbered};

use std::cmp::Ordering;

// Why a question of these two is refused, with its number.
#[derive(Clone, Copy, PartialEq, Eq)]
pub enum Refusal {
    LevelNotFinite = 18,
    WrongSize = 19,
}

impl From<Refusal> for u32 {
    ghost from_gives = { λ r n. n ≡ refusal_number r };

    fn from(r: Refusal) -> u32 {
        r as u32
    }
}

// Whether a is at or below the level and b above it, or a above it and b at or below. A NaN is neither.
fn crosses(level: f64, a: f64, b: f64) -> bool
    ensures { result ≡ upward level a b || downward level a b }
{
    a <= level && level < b || level < a && b <= level
}

// The level first, then the sizes: at most 65,536 places, and as many to list them in.
#[tactic(auto, unfolding(crate::specs::Crossings::unlisted))]
fn unlisted(level: f64, n: usize, places: usize) -> Result<(), Refusal>
    ensures { refusal_in result ≡ unlisted level n places }
{
    if !float64::is_finite(level) {
        return Err(Refusal::LevelNotFinite);
    }
    if 65536 < n || places < n {
        return Err(Refusal::WrongSize);
    }
    Ok(())
}

// The first places of list become the crossings; how many there are.
fn list_crossings(list: &mut [u32], level: f64, trend: &[f64]) -> usize
    requires { (length trend.now ≤ length list.old) × (length trend.now ≤ 65536) }
    ensures { Wrote list.old 0 (crossings level trend.now) list.new result }
{
    let mut n = 0;
    for i in 0..trend.len().saturating_sub(1) {
        let here = crosses(level, trend[i], trend[i + 1]);
        n = vectors::add_place(list, n, i, here);
    }
    n
}

// The first places of list become the places at which the trend passes the level; how many there are.
pub fn crossings(level: f64, trend: &[f64], list: &mut [u32]) -> Result<usize, Refusal>
    ensures { CrossingsListed level trend.now (numbered result) list.old list.new }
{
    unlisted(level, trend.len(), list.len())?;
    Ok(list_crossings(list, level, trend))
}

// The nearer of two knots; the lower where they are as near.
fn nearer(place: usize, a: u32, b: u32) -> u32
    ensures { result ≡ nearer place a b }
{
    match place.abs_diff(a as usize).cmp(&place.abs_diff(b as usize)) {
        Ordering::Less => a,
        Ordering::Greater => b,
        Ordering::Equal => a.min(b),
    }
}

// The nearest of the knots.
fn nearest_in(place: usize, knots: &[u32]) -> Option<u32>
    ensures { result ≡ nearest_in place knots.now }
{
    knots.iter().copied().reduce(|a, b| nearer(place, a, b))
}

// The knot nearest a place of the trend, the lower at a tie.
#[tactic(auto, unfolding(crate::specs::Nearest::nearest_knot))]
pub fn nearest_knot(place: u64, trend: &[f64], knots: &[u32]) -> Result<Option<u32>, Refusal>
    ensures { numbered result ≡ nearest_knot place (length trend.now) knots.now }
{
    let n = trend.len();
    if 65536 < n || n as u64 <= place {
        return Err(Refusal::WrongSize);
    }
    Ok(nearest_in(place as usize, knots))
}
