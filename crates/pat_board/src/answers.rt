// What an advance answers.
use pat_machine::{Outcome, Receipt};

/// What an advance added, and the outcome, if the run is at one then.
#[derive(Clone, Copy, Debug, PartialEq, Eq)]
pub struct Advance {
    pub receipt: Receipt,
    pub outcome: Option<Outcome>,
}

/// Why an advance added nothing: no step is open; one is, and all steps are spent; or memory ran out.
#[derive(Clone, Copy, Debug, PartialEq, Eq)]
pub enum AdvanceRefused {
    NotReady,
    Spent,
    NoMemory,
}
