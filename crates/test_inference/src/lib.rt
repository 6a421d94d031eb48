//! Inference of whole texts: tests, and the program of a text for those who measure.
#![tactic(auto)]

#[cfg(test)]
mod checking;
mod programs;
#[cfg(test)]
mod tests;
#[cfg(test)]
mod written;

pub use programs::program_of_text;
