// The week's series: `read_week` gathers the slots of a file, corrections made, and closes up those that sound, or refuses.
#![tactic(auto)]

ghost use Rattle.std.specs.Prelude.{◌≡◌, List, ◌∷◌, [], ◌+◌, ◌≤◌, ◌<◌, ltb, length, set, Float};
ghost use Rattle.std.proofs.Math.Option.{some};
ghost use Rattle.framing.specs.Bytes.{number_at};
ghost use Rattle.records.specs.Entries.{Entry, sounding, hours_of};
ghost use Rattle.records.specs.Positions.{positions_from, positions_of};
ghost use Rattle.records.specs.Week.{read_week, entries_in, ask_hours};
ghost use Rattle.records.specs.Inner.{kind_number, size_of};
ghost use Rattle.series.specs.Inner.{Reads, refusal_number, slots_at, slot_of, slots_in, said_at, corrected_at, slots_once, names_at, ReadSlots, WroteHours};
ghost use Rattle.series.specs.declared.Refusal.TheVariants.{NoRecords};

use framing::NoRecord;
use records::{Kind, Record, Settings};

// Why a week is not read.
#[derive(Clone, Copy, PartialEq, Eq)]
pub enum Refusal {
    NoRecords = 11,
    WrongSettings = 12,
    TooManyHours = 13,
    NoEarlierHour = 17,
    WrongRate = 22,
}

impl From<Refusal> for u32 {
    ghost from_gives = { λ r n. n ≡ refusal_number r };

    fn from(r: Refusal) -> u32 {
        r as u32
    }
}

impl From<NoRecord> for Refusal {
    ghost from_gives = { λ _ r. r ≡ NoRecords };

    fn from(_e: NoRecord) -> Refusal {
        Refusal::NoRecords
    }
}

// The settings of a week, and how many hours there are.
#[derive(Clone, Copy)]
pub struct Week {
    pub settings: Settings,
    pub n: usize,
}

// How many slots the week has, whether every correction names an earlier one, and whether every rate counts.
#[derive(Clone, Copy)]
struct Gathered {
    n: usize,
    named: bool,
    rated: bool,
}

// How many slots of the week a record is: silent or not, an hour is one.
fn slots_of(kind: Kind) -> usize
    ensures { (result ≡ slots_at (kind_number kind)) × (result ≤ 1) }
{
    match kind {
        Kind::Hour | Kind::Silence | Kind::Frames => 1,
        Kind::Settings | Kind::Correction => 0,
    }
}

// The milliseconds that a record says: NaN where question 22 refuses its rate, and 0 where it says none.
fn said(s: &[u8], kind: Kind, body: usize) -> f64
    requires { body + size_of kind ≤ length s.now }
    ensures { result ≡ said_at s.now (kind_number kind) body }
{
    match kind {
        Kind::Hour => framing::signed(framing::number::<4>(s, body)),
        Kind::Correction => framing::signed(framing::number::<4>(s, body + 2)),
        Kind::Frames => overrun::milliseconds(s, body),
        Kind::Silence | Kind::Settings => 0.0,
    }
}

// Makes the slot that a correction names sound with x milliseconds, if it is one of the first n, and answers whether it is.
fn correct(s: &[u8], body: usize, x: f64, slots: &mut [Option<f64>], n: usize) -> bool
    requires { (body + 6 ≤ length s.now) × (n < length slots.old) }
    ensures value { result ≡ ltb (number_at body 2 s.now) n }
    ensures slots_after { slots_in slots.new ≡ corrected_at s.now body x n (slots_in slots.old) }
{
    let p = framing::number::<2>(s, body) as usize;
    if p < n {
        slots[p] = Some(x);
        true
    } else {
        false
    }
}

// Puts a record that says x milliseconds into the week, of which n slots stand already. Answers whether it names one of them, if it is a correction.
fn put_record(s: &[u8], r: Record, x: f64, slots: &mut [Option<f64>], n: usize) -> bool
    requires { (r.body + size_of r.kind ≤ length s.now) × (n < length slots.old) }
    ensures value { result ≡ names_at s.now (kind_number r.kind) r.body n }
    ensures slots_after { slots_in slots.new ≡ slots_once s.now (kind_number r.kind) r.body x n (slots_in slots.old) }
{
    match r.kind {
        Kind::Hour | Kind::Frames => {
            slots[n] = Some(x);
            true
        }
        Kind::Silence => {
            slots[n] = None;
            true
        }
        Kind::Correction => correct(s, r.body, x, slots, n),
        Kind::Settings => true,
    }
}

// Puts the week of an input that splits at the start of the slots.
fn read_slots(s: &[u8], slots: &mut [Option<f64>; 1024]) -> Gathered
    requires { length s.now ≤ 4096 }
    ensures { (es : List Entry) → entries_in s.now ≡ some es → ReadSlots es (slots_in slots.old) (slots_in slots.new) result }
{
    let mut at: usize = 0;
    let mut n: usize = 0;
    let mut named = true;
    let mut rated = true;
    while let Ok(Some(r)) = records::record_at(s, at) {
        let x = said(s, r.kind, r.body);
        named &= put_record(s, r, x, slots, n);
        rated &= !x.is_nan();
        n += slots_of(r.kind);
        at = r.next;
    }
    Gathered { n, named, rated }
}

// How many slots sound.
fn sounding(slots: &[Option<f64>]) -> usize
    ensures { result ≡ length (hours_of (slots_in slots.now)) }
{
    slots.iter().filter(|slot| slot.is_some()).count()
}

// Puts an hour that sounds at place n of y and its position at place n of positions, and answers the next place.
fn put_hour(slot: Option<f64>, p: u32, y: &mut [f64], positions: &mut [u32], n: usize) -> usize
    requires { (n + length (hours_of (slot_of slot ∷ [])) ≤ length y.old) × (n + length (hours_of (slot_of slot ∷ [])) ≤ length positions.old) }
    ensures { WroteHours (hours_of (slot_of slot ∷ [])) (positions_from p (slot_of slot ∷ [])) n y.old y.new positions.old positions.new result }
{
    if let Some(x) = slot {
        y[n] = x;
        positions[n] = p;
        n + 1
    } else {
        n
    }
}

// Puts the hours of a week at the start of y and their positions at the start of positions, and answers how many there are.
fn close_up(slots: &[Option<f64>], y: &mut [f64], positions: &mut [u32]) -> usize
    requires slots_len { length slots.now ≤ 1024 }
    requires hours_in_bounds { (length (hours_of (slots_in slots.now)) ≤ length y.old) × (length y.old ≤ length positions.old) }
    ensures { WroteHours (hours_of (slots_in slots.now)) (positions_of (slots_in slots.now)) 0 y.old y.new positions.old positions.new result }
{
    let mut n: usize = 0;
    for (i, slot) in slots.iter().enumerate() {
        n = put_hour(*slot, i as u32, y, positions, n);
    }
    n
}

// Questions 13 and 22 over a week, and then its hours and their positions.
fn take_hours(
    settings: Settings,
    rated: bool,
    slots: &[Option<f64>],
    y: &mut [f64; 168],
    positions: &mut [u32; 168],
) -> Result<Week, Refusal>
    requires { length slots.now ≤ 1024 }
    ensures { Reads (ask_hours settings (slots_in slots.now) rated) result y.old y.new positions.old positions.new }
{
    if sounding(slots) > 168 {
        return Err(Refusal::TooManyHours);
    }
    if !rated {
        return Err(Refusal::WrongRate);
    }
    let n = close_up(slots, y, positions);
    Ok(Week { settings, n })
}

// Questions 11, 12, 17, 13 and 22 over the bytes of a week, and then its settings and its hours, which go to the start of y, and their positions to the start of positions.
pub fn read_week(s: &[u8], y: &mut [f64; 168], positions: &mut [u32; 168]) -> Result<Week, Refusal>
    ensures { Reads (read_week s.now) result y.old y.new positions.old positions.new }
{
    if s.len() > 4096 {
        return Err(Refusal::NoRecords);
    }
    let count = records::walk(s)?;
    let settings = records::first_record(s).ok_or(Refusal::WrongSettings)?;
    if count != 1 {
        return Err(Refusal::WrongSettings);
    }
    let mut slots = [None; 1024];
    let week = read_slots(s, &mut slots);
    if !week.named {
        return Err(Refusal::NoEarlierHour);
    }
    take_hours(settings, week.rated, &slots[..week.n], y, positions)
}
