//! A lock that hands one value from pass to pass, in the order of their tickets.
#![tactic(auto)]

mod law;
mod parking;
mod plays;
mod turn;
mod view;
mod wake_flags;

pub use law::{Law, Opening};
pub use turn::{Notify, Pass, Turn};
pub use view::{Part, Stage, View};
