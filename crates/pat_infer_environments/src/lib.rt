//! Needs: what the parts of a term need together, and of a `let`.
#![tactic(auto)]

mod arguments;
mod branching;
mod gathering;
mod joining;
mod kinds;
mod lets;
mod looking;
mod needs;
mod variables;

pub use arguments::{Arguments, args_needs, type_at};
pub use branching::do_agree;
pub use gathering::gather_branches;
pub use kinds::{is_receiver, is_second};
pub use lets::{asked_of, join_let};
pub use looking::{Cursor, column_of, first_places};
pub use needs::{find, is_named, put, without};
pub use variables::names_of;
