// Questions 1 to 9: what is asked for, and the lengths lent. What a fit needs, for whoever asks first.
#![tactic(auto)]

ghost use Rattle.std.specs.Prelude.{◌≡◌, ◌&&◌, ◌≤◌, leb};
ghost use Rattle.questions.specs.Needs.{needs_of};
ghost use Rattle.questions.specs.Questions.{room, question};
ghost use Rattle.questions.specs.Refusals.{refusal_number, refusal_in, numbered};
ghost use Rattle.questions.specs.Groups.{kinds_known, all_finite, lam_right, tol_right, limit_right, sizes, values};
ghost use Rattle.questions.specs.Asking.{asking, lending};
ghost use Rattle.questions.specs.Beforehand.{needed};

// What a fit needs: places of work and of marks, and the most steps that its search takes.
#[derive(Clone, Copy)]
pub struct Figures {
    pub work: u64,
    pub marks: u64,
    pub steps: u64,
}

// Why a call is refused, with its number: questions 1 to 9, and a pivot of D D' that is bad.
#[derive(Clone, Copy, PartialEq, Eq)]
pub enum Refusal {
    UnknownKind = 1,
    TooShort = 2,
    TooLong = 3,
    ValueNotFinite = 4,
    WrongLam = 5,
    WrongTol = 6,
    NoIteration = 7,
    AnswerRoom = 8,
    ScratchRoom = 9,
    BadPivot = 10,
}

impl From<Refusal> for u32 {
    ghost from_gives = { λ r n. n ≡ refusal_number r };

    fn from(r: Refusal) -> u32 {
        r as u32
    }
}

fn kinds_known(order: u32, penalty: u32) -> bool
    ensures { result ≡ kinds_known order penalty }
{
    matches!(order, 1 | 2) && matches!(penalty, 1 | 2)
}

#[tactic(auto, unfolding(crate::specs::Questions::finite_to))]
fn all_finite(y: &[f64]) -> bool
    ensures { result ≡ all_finite y.now }
{
    let mut all = true;
    for x in y {
        all &= float64::is_finite(*x);
    }
    all
}

fn lam_right(lam: f64) -> bool
    ensures { result ≡ lam_right lam }
{
    float64::is_finite(lam) && !(lam < 0.0)
}

fn tol_right(tol: f64) -> bool
    ensures { result ≡ tol_right tol }
{
    float64::is_finite(tol) && 0.0 < tol
}

fn limit_right(max_iter: u64) -> bool
    ensures { result ≡ limit_right max_iter }
{
    1 <= max_iter
}

fn answer_room(n: usize, trend: usize, cycle: usize, knots: usize, dual: usize) -> bool
    ensures { result ≡ leb n trend && leb n cycle && leb n knots && leb n dual }
{
    n <= trend && n <= cycle && n <= knots && n <= dual
}

fn scratch_room(need: Figures, work: usize, marks: usize) -> bool
    ensures { result ≡ leb need.work work && leb need.marks marks }
{
    need.work <= work as u64 && need.marks <= marks as u64
}

// The figures of a series of n.
fn figures_of(n: u64, max_iter: u64, penalty: u32) -> Figures
    requires { n ≤ 65536 }
    ensures { result ≡ needs_of n max_iter penalty }
{
    if penalty == 2 {
        Figures {
            work: 16 * n,
            marks: 0,
            steps: 0,
        }
    } else {
        Figures {
            work: 40 * n,
            marks: 2 * n,
            steps: max_iter.min(1447640),
        }
    }
}

// Questions 1 to 3: the first that is answered no.
#[tactic(auto, unfolding(crate::specs::Groups::sizes))]
fn sizes(n: u64, order: u32, penalty: u32) -> Result<(), Refusal>
    ensures { refusal_in result ≡ sizes n order penalty }
{
    if !kinds_known(order, penalty) {
        return Err(Refusal::UnknownKind);
    }
    if n <= u64::from(order) {
        return Err(Refusal::TooShort);
    }
    if 65536 < n {
        return Err(Refusal::TooLong);
    }
    Ok(())
}

// Questions 4 to 7.
#[tactic(auto, unfolding(crate::specs::Groups::values))]
fn values(y: &[f64], lam: f64, tol: f64, max_iter: u64) -> Result<(), Refusal>
    ensures { refusal_in result ≡ values y.now lam tol max_iter }
{
    if !all_finite(y) {
        return Err(Refusal::ValueNotFinite);
    }
    if !lam_right(lam) {
        return Err(Refusal::WrongLam);
    }
    if !tol_right(tol) {
        return Err(Refusal::WrongTol);
    }
    if !limit_right(max_iter) {
        return Err(Refusal::NoIteration);
    }
    Ok(())
}

// Questions 8 and 9, for a series of n.
#[tactic(auto, unfolding(crate::specs::Questions::room))]
fn room(
    n: usize,
    need: Figures,
    trend: usize,
    cycle: usize,
    knots: usize,
    dual: usize,
    work: usize,
    marks: usize,
) -> Result<(), Refusal>
    ensures { refusal_in result ≡ room n need (lending trend cycle knots dual work marks) }
{
    if !answer_room(n, trend, cycle, knots, dual) {
        return Err(Refusal::AnswerRoom);
    }
    if !scratch_room(need, work, marks) {
        return Err(Refusal::ScratchRoom);
    }
    Ok(())
}

// The first question of 1 to 9 that is answered no. trend, cycle, knots, dual, work and marks are the lengths lent.
pub fn question(
    y: &[f64],
    lam: f64,
    tol: f64,
    max_iter: u64,
    order: u32,
    penalty: u32,
    trend: usize,
    cycle: usize,
    knots: usize,
    dual: usize,
    work: usize,
    marks: usize,
) -> Result<(), Refusal>
    ensures { refusal_in result ≡ question (asking y.now lam tol max_iter order penalty) (lending trend cycle knots dual work marks) }
{
    let n = y.len();
    sizes(n as u64, order, penalty)?;
    values(y, lam, tol, max_iter)?;
    let need = figures_of(n as u64, max_iter, penalty);
    room(n, need, trend, cycle, knots, dual, work, marks)
}

// What a fit of n places needs, asked before it: questions 1, 2, 3 and 7, then the figures.
pub fn needs(n: u64, max_iter: u64, order: u32, penalty: u32) -> Result<Figures, Refusal>
    ensures { numbered result ≡ needed n max_iter order penalty }
{
    sizes(n, order, penalty)?;
    if !limit_right(max_iter) {
        return Err(Refusal::NoIteration);
    }
    Ok(figures_of(n, max_iter, penalty))
}
