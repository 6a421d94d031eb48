// Patterns in which variables are replaced, and derivatives by a variable: each stops where what it makes is too large.
// Calls walk down the first levels of a pattern alone: below, what is still to be done, and what is made, stand on stacks.

mod derivatives;
mod joining;
mod replacement;
mod replacing;
mod searching;

pub use derivatives::derivative;
pub use replacement::{Replacement, value_among};
pub use replacing::replaced;
pub use searching::find_variable;
