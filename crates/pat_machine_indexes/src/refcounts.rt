// How often each mailbox of a machine's configuration is named.

mod changing;
mod freed;
mod listing;
mod names;

pub use freed::Counted;
pub use listing::list_top;
pub use names::RefCounts;
