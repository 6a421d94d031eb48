//! Trees: programs as they are written, with the place of each part in the text.
#![tactic(auto)]

mod expression;
mod pattern;
mod term;
mod tree;

pub use expression::{ExprForm, TreeExpr};
pub use pattern::{Name, TreePattern};
pub use term::{Form, Term, TreeClause};
pub use tree::{Decl, Param, Tree, TreeMessage, TreeType};
