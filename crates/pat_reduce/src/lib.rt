//! Threads, configurations and their steps.
#![tactic(auto)]

mod config;
mod enabled;
mod history;
mod references;
mod steps;
mod threads;

pub use config::Config;
pub use enabled::plain_act;
pub use history::{Act, Entry, Step};
pub use pat_reduce_values::{StepError, Value};
pub use threads::{
    Control, Core, Frame, GuardRef, Message, ThreadState, core_of, enter, go_on_with, guard_of,
    makes_mailbox, next_line, next_message, next_thread, node_with, takes,
};
