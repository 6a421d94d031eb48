//! The command `resume`: a run that goes on from the checkpoint behind a program and a derivation, if both are good.
#![tactic(auto)]

mod command;
mod laws;
mod running;

pub use command::answer_resume;
pub use laws::resume_law;
