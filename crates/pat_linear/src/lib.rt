//! Linear sets of words, and the closed form of a pattern: linear sets that together have its words.
#![tactic(auto)]

mod along;
mod comparing;
mod error;
mod flat;
mod forms;
mod products;
mod set;
mod stars;

pub use comparing::{holds, same_counts};
pub use error::FormError;
pub use forms::closed_form;
pub use set::LinearSet;
