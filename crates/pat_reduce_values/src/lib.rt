//! Values, environments, what expressions come to, and programs with the free variables of their nodes.
#![tactic(auto)]

mod environments;
mod error;
mod evaluation;
mod lookups;
mod programs;
mod values;

pub use environments::{
    bind, bind_all, bound, copied, divided, divided_with, enter_body, keep_free, kept, kept_but,
};
pub use error::StepError;
pub use evaluation::{evaluate, have_values, parameters, value_for, value_of, values_of};
pub use programs::Executable;
pub use values::{Value, ValueRef};
