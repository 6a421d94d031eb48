// The lower bounds of an interface's variables, where these are numbered anew, by their places from 0 on: a system of its own.

mod places;
mod renaming;
mod systems;

pub use renaming::renamed;
pub use systems::{let_go, system_of};
