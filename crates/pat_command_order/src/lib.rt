//! The command `order`: a program's history with its entries in order.
#![tactic(auto)]

mod command;
mod laws;

pub use command::answer_order;
pub use laws::order_law;
