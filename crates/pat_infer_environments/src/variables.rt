// The variables that several parts need, in ascending order.

mod names;

pub use names::{names_of, names_of_parts};
