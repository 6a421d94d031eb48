// What the parser does where a term ends: at the end of a body, of a block, of a clause and of a guard.

mod ends;

pub use ends::{behind_simple, clause};
