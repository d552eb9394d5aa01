// Why a search stopped, and the number that stands for it. All else here is definitions (specs/).
#![tactic(auto)]

ghost use Rattle.std.specs.Prelude.{◌≡◌};
ghost use Rattle.search.specs.Reasons.{reason_number};

// Why a search stopped; a closed path made none.
#[derive(Clone, Copy, PartialEq, Eq)]
pub enum Reason {
    ClosedPath = 0,
    GapSmall = 1,
    LimitSpent = 2,
    Stalled = 3,
    PivotLost = 4,
}

// The reason's number.
impl From<Reason> for u64 {
    fn from(r: Reason) -> u64
        ensures { result ≡ reason_number r }
    {
        r as u64
    }
}
