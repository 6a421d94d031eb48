// A configuration whose threads stand at the places of their numbers, and steps of one thread by itself.

mod copies;
mod in_place;
mod moves;
mod placed;
mod remains;
mod steps;

pub use placed::ThreadStore;
pub use remains::Remains;
