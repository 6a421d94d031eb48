// The program in front of the mark of an input of two parts.

mod laws;
mod programs;

pub use laws::program_law;
pub use programs::program_before;
