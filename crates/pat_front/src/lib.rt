//! Tokens to a tree and a program, or a verdict; and what a call answers.
#![tactic(auto)]

mod exit_answers;
mod front;
mod laws;
mod pieces;
mod reason;
mod verdict;

pub use exit_answers::{
    Answer, Status, accepted_answer, refused, verdict_answer, verdict_answer_with,
};
pub use front::{FrontError, check_tree, program_of, tree_of};
pub use laws::verdict_law;
pub use reason::Reason;
pub use verdict::Verdict;
