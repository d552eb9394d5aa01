// The whole fit as a definition (specs/), and the numbers that every path of it answers.
#![tactic(auto)]

use search::Reason;

// gap, first_gap and best_gap are P - G: of the trend that is kept, at the start of the search, and the best of the search. objective is P. reason says why the search stopped.
#[derive(Clone, Copy)]
pub struct Numbers {
    pub gap: f64,
    pub first_gap: f64,
    pub best_gap: f64,
    pub objective: f64,
    pub n_iter: u64,
    pub improvements: u64,
    pub converged: bool,
    pub reason: Reason,
}
