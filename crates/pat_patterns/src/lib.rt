//! Patterns over tags: their data, residuals, tests of all their words, and their postfix form.
#![tactic(auto)]

mod building;
mod joining;
mod pattern;
mod postfix_form;
mod reading;
mod residuals;
mod substitution;

pub use building::{product, star, sum};
pub use joining::{join_product, join_star, join_sum, take_one};
pub use pattern::Pattern;
pub use postfix_form::{Head, postfix};
pub use reading::{has_values, levels, size};
pub use residuals::{covers, degree, inhabited, is_flat, nullable, residual};
pub use substitution::subst;
