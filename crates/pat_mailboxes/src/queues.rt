// Many queues in one region of nodes.

mod chains;
mod lanes;
mod links;
mod pool;
mod region;
mod test;

pub use chains::{Chain, Chains};
pub use lanes::{LANES, lane_of};
pub use pool::{Mark, Pool};
pub use region::Region;
pub use test::{Numbered, Test};
