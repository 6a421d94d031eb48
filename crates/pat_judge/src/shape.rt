// Whether the line of a node is one for it, whether its sending patterns have words, and whether the clauses of a guard cover its pattern.

mod covering;
mod needs;
mod shape;
mod starting;
mod words;

pub use covering::guard_covers;
pub use needs::tested_needs;
pub use pat_certificate_values::{Tests, tests_of};
pub use shape::has_shape;
pub use starting::has_values;
pub use words::has_words;
