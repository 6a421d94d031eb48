// Closed forms of patterns in which values are put, built only as far as they can be small.

mod building;
mod forms;
mod point_patterns;
mod replacing;

pub use forms::form_of;
