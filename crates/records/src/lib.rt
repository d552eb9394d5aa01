// The week's file: what its records say, one by one.
#![tactic(auto)]

ghost use Rattle.std.specs.Prelude.{◌≡◌, List, ◌+◌, ◌≤◌, length, take, drop};
ghost use Rattle.std.proofs.Math.Option.{some};
ghost use Rattle.records.specs.Entries.{Entry, settings_in};
ghost use Rattle.records.specs.Week.{entries_in};
ghost use Rattle.records.specs.Inner.{tally_of, opening_of, kind_of, size_of, Stands};

use framing::NoRecord;

// The kinds of a week's records, with their numbers in the file.
#[derive(Clone, Copy, PartialEq, Eq)]
pub enum Kind {
    Hour = 1,
    Silence = 2,
    Settings = 3,
    Correction = 4,
    Frames = 5,
}

impl TryFrom<u64> for Kind {
    type Error = NoRecord;

    ghost try_from_gives = { λ k r. r ≡ kind_of k };

    fn try_from(k: u64) -> Result<Kind, NoRecord> {
        match k {
            1 => Ok(Kind::Hour),
            2 => Ok(Kind::Silence),
            3 => Ok(Kind::Settings),
            4 => Ok(Kind::Correction),
            5 => Ok(Kind::Frames),
            _ => Err(NoRecord),
        }
    }
}

impl Kind {
    // The size of its bodies.
    fn size(self) -> usize
        ensures { result ≡ size_of self }
    {
        match self {
            Kind::Hour => 4,
            Kind::Silence => 0,
            Kind::Settings => 26,
            Kind::Correction => 6,
            Kind::Frames => 12,
        }
    }
}

// A record of a known kind, its body of its kind's size: where that starts, and where the next record does.
#[derive(Clone, Copy, PartialEq, Eq)]
pub struct Record {
    pub kind: Kind,
    pub body: usize,
    pub next: usize,
}

#[derive(Clone, Copy)]
pub struct Settings {
    pub lam: f64,
    pub tol: f64,
    pub max_iter: u64,
    pub order: u32,
    pub penalty: u32,
}

// What stands at a place: no record where the bytes end there.
pub fn record_at(s: &[u8], at: usize) -> Result<Option<Record>, NoRecord>
    ensures { Stands s.now at result }
{
    let Some(r) = framing::head_at(s, at)? else {
        return Ok(None);
    };
    let kind = Kind::try_from(r.kind)?;
    if r.next - r.body != kind.size() {
        return Err(NoRecord);
    }
    Ok(Some(Record {
        kind,
        body: r.body,
        next: r.next,
    }))
}

// Walks over the whole input and counts its settings.
pub fn walk(s: &[u8]) -> Result<usize, NoRecord>
    ensures { result ≡ tally_of (entries_in s.now) }
{
    let mut at: usize = 0;
    let mut settings: usize = 0;
    while let Some(r) = record_at(s, at)? {
        settings += usize::from(r.kind == Kind::Settings);
        at = r.next;
    }
    Ok(settings)
}

// The settings in a record's body.
fn settings_at(s: &[u8], body: usize) -> Settings
    requires { body + 26 ≤ length s.now }
    ensures { result ≡ settings_in (take 26 (drop body s.now)) }
{
    Settings {
        lam: float64::double(framing::number::<8>(s, body)),
        tol: float64::double(framing::number::<8>(s, body + 8)),
        max_iter: framing::number::<8>(s, body + 16),
        order: u32::from(s[body + 24]),
        penalty: u32::from(s[body + 25]),
    }
}

// The settings of an input that splits, where they come first.
pub fn first_record(s: &[u8]) -> Option<Settings>
    ensures { (es : List Entry) → entries_in s.now ≡ some es → result ≡ opening_of es }
{
    match record_at(s, 0) {
        Ok(Some(r)) if r.kind == Kind::Settings => Some(settings_at(s, r.body)),
        _ => None,
    }
}
