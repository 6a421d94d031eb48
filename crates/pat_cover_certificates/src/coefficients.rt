// Numbers by which periods make a word: the first list of them in the order of lists.

mod divisors;
mod failed;
mod frames;
mod numbers;
mod single;
mod tags;

pub use numbers::find_numbers;
pub use tags::{counts_are_all, tags_are_few};
