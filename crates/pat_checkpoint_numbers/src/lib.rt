//! The rules of a checkpoint on numbers and on different mailboxes, and marks on live mailboxes.
#![tactic(auto)]

mod differing;
mod live;
mod marking;
mod marks;
mod numbers;

pub use differing::mailboxes_differ;
pub use live::interface_of;
pub use marks::Marks;
pub use numbers::numbers_hold;
