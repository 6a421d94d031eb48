// The lines of variables and of nodes of derivations, read from their text.

mod grids;
mod lines;
mod values;

pub use lines::read_line;
