// Which threads may go on after one of them took its steps, which are about to send, and which sleep.

mod following;
mod noting;
mod sending;
mod waking;

pub use noting::{act_of, note_threads};
pub use pat_machine_states::{IndexedConfig, Prospect, RefCounts, Remains, Taken, list_top};
