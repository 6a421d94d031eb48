// Texts of checkpoints, read and examined: each rule broken once, and bad lines. Tests only.

mod looked;
mod rows;

pub use rows::checkpoints_are_examined;
