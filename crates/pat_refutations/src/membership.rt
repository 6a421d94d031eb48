// Whether a word is a word of a pattern.

mod cutting;
mod membership;
mod places;
mod word_lists;

pub use cutting::member;
