// The nodes of a function's body: a tree's names become numbers.

mod bodies;
mod expressions;
mod guards;
mod leaves;
mod lookups;
mod state;
mod terms;

pub use state::{Context, Numbering};
