//! The end of a job on the kept configuration, and which threads may go on after it.
#![tactic(auto)]

mod shared_steps;
mod wakeups;

pub use shared_steps::{
    IndexedConfig, Prospect, RefCounts, Remains, Taken, list_top, share, share_in_place,
};
pub use wakeups::{act_of, note_threads};
