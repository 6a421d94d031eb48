//! The judge: all rules at all numbers, in order.
#![tactic(auto)]

mod judging;
mod nodes;
mod shape;
mod tables;

pub use judging::{Rejection, judge};
