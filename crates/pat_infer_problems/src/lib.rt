//! What inference answers, and the types of signatures.
#![tactic(auto)]

mod adding;
mod error;
mod places;
mod problem;
mod signatures;

pub use adding::{add_constraint, add_variable, set_node};
pub use error::{InferError, Rule};
pub use places::{check_name, check_node, name_span, node_span};
pub use problem::{Constraint, Problem, VarDecl};
pub use signatures::{Signature, open_signatures};
