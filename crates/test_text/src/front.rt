// Whole texts from text to tree and back. Tests only.

mod programs;
pub mod tests;
