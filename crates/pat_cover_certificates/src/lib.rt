//! Direct covers: certificates that one list of linear sets lies in another, the search for one, and its check.
#![tactic(auto)]

mod coefficients;
mod combining;
mod cover;
mod few_tags;
mod finding;
mod set_index;

pub use cover::{CoverEntry, check_cover};
pub use finding::find_cover;
