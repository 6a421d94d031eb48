// Which threads may go on, which are about to send, and which sleep at a guard.

mod ascending;
mod waits;

pub use ascending::{Ascending, lesser};
pub use waits::ReadySets;
