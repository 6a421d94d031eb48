//! Vectors, stacks and texts that contracts see as lists.
#![tactic(auto)]

mod base;
mod dropping;
mod sequence;
mod stack;
mod text;

pub use base::Base;
pub use dropping::let_go;
pub use sequence::Sequence;
pub use stack::Stack;
pub use text::Text;
