// Framed bytes: numbers, the lowest byte first, and records of a length, a kind and a body. Which kinds there are is the reader's.
#![tactic(auto)]

ghost use Rattle.std.specs.Prelude.{◌≡◌, ◌+◌, ◌^◌, ◌≤◌, ◌<◌, length};
ghost use Rattle.std.specs.Float.{binary64};
ghost use Rattle.std.specs.Float.Ieee.{of_int};
ghost use Rattle.framing.specs.Bytes.{number_at, signed32};
ghost use Rattle.framing.specs.Places.{head_at};

// A record: its kind, where its body starts, and where the next record does.
#[derive(Clone, Copy, PartialEq, Eq)]
pub struct Record {
    pub kind: u64,
    pub body: usize,
    pub next: usize,
}

// No whole record stands at a place where the bytes go on.
#[derive(Clone, Copy, PartialEq, Eq)]
pub struct NoRecord;

// The number that N bytes spell, the lowest first.
#[tactic(auto, using(crate::proofs::Numbers::one_is, crate::proofs::Numbers::two_is, crate::proofs::Numbers::four_is, crate::proofs::Numbers::eight_is))]
pub fn number<const N: usize>(s: &[u8], at: usize) -> u64
    requires fits { N ≤ 8 }
    requires inside { at + N ≤ length s.now }
    ensures value { result ≡ number_at at N s.now }
    ensures below { result < 256 ^ N }
{
    let mut n: u64 = 0;
    for b in s[at..at + N].iter().rev() {
        n = 256 * n + u64::from(*b);
    }
    n
}

pub fn eight(s: &[u8], at: usize) -> u64
    requires { at + 8 ≤ length s.now }
    ensures { result ≡ number_at at 8 s.now }
{
    number::<8>(s, at)
}

// A number of 32 bits, read as a signed one, as a double.
pub fn signed(x: u64) -> f64
    requires { x < 4294967296 }
    ensures { result ≡ of_int binary64 (signed32 x) }
{
    if x < 2147483648 {
        x as f64
    } else {
        -((4294967296 - x) as f64)
    }
}

// What stands at a place: no record where the bytes end there.
#[tactic(auto, unfolding(crate::specs::Places::head_at))]
pub fn head_at(s: &[u8], at: usize) -> Result<Option<Record>, NoRecord>
    ensures { result ≡ head_at s.now at }
{
    if s.len() <= at {
        return Ok(None);
    }
    let left = s.len() - at;
    if left < 4 {
        return Err(NoRecord);
    }
    let len = number::<2>(s, at);
    if len < 2 {
        return Err(NoRecord);
    }
    let size = 2 + len as usize;
    if left < size {
        return Err(NoRecord);
    }
    Ok(Some(Record {
        kind: number::<2>(s, at + 2),
        body: at + 4,
        next: at + size,
    }))
}
