//! Core programs: interfaces, and functions over numbered nodes and numbered variables.
#![tactic(auto)]

mod copying;
mod expression;
mod program;

pub use expression::Expr;
pub use program::{
    Clause, Core, Function, Interface, Kind, MailboxSort, Node, Program, Sort, TagDecl,
};
