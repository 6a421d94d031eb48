// What solving answers: a solution of a program's problem, or the first reason why there is none.

mod error;
mod solution;

pub use error::SolveError;
pub use solution::Solution;
