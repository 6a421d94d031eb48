// Texts of derivations, read and judged: each rule broken once, bad lines, and the fronts of a text. Tests only.

mod judged;
mod rows;

pub use rows::derivations_are_judged;
