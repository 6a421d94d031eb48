//! The heads of declarations: what names stand for, and what a resolver answers.
#![tactic(auto)]

mod check;
mod gather;
mod heads;
mod names;
mod number;
mod patterns;
mod reading;
mod results;
mod tables;

pub use heads::{Heads, Signature};
pub use names::{InterfaceTable, Names};
pub use number::{number_params, number_type};
pub use patterns::{check_pattern, number_pattern};
pub use reading::read_heads;
pub use results::{ResolveError, ResolveKind};
pub use tables::{EarlierNames, NameRef, ScopeTable, Variable};
