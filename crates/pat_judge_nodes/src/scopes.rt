// Which variables are in scope at the nodes of a program: the node above each in one pass, and names looked for upwards.

mod above;
mod looking;

pub use above::nodes_above;
pub use looking::{in_scope, names_in_scope};
