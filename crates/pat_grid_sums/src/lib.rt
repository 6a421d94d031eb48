//! Sets of points as words of bits: sums of two sets, and what all symbols of a system reach.
#![tactic(auto)]

mod bits;
mod least;
mod moving;
mod reached;
mod rows;
mod shape;
mod steps;
mod sums;
mod system;

pub use reached::reached_entries;
pub use sums::list_sums;
pub use system::System;
