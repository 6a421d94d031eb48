// Lets: what a bound part is asked for, the rules of a let, and what it needs.

mod lets;

pub use lets::{asked_of, join_let};
