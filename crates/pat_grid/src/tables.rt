// Tables of least trees: for each symbol and point the size of a least tree, lowered until no step gives less.

mod board;
mod entries;
mod listing;
mod passes;
mod sizes;
mod steps;
mod sums;
mod symbols;
mod users;

pub use board::Board;
pub use entries::{alike_until, entry, next_known};
pub use passes::least_sizes;
