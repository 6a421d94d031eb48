// The end of a job on the kept configuration, with the names of mailboxes counted as they change.

mod counting;
mod sharing;

pub use pat_machine_states::{IndexedConfig, Prospect, RefCounts, Remains, Taken, list_top};
pub use sharing::{share, share_in_place};
