//! Patterns of derivations, the values of their variables and their closed forms, points of grids, and whether types are the same.
#![tactic(auto)]

mod forms;
mod looking;
mod points;
mod types;
mod values;
mod words;

pub use forms::form_of;
pub use looking::{are_same_and_formed, is_formed, tag_count, tags_are_few, var_of};
pub use pat_derivations::Derivation;
pub use points::points_fit;
pub use types::{
    is_second, same_base, same_kind, same_pattern, same_polarity, same_type, usage_fits,
};
pub use values::values_fit;
pub use words::{Tests, has_empty_word, has_word, tests_of};
