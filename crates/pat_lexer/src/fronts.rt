// What stands at the front of bytes: runs of one sort, a character, a word or a mark.

mod character;
mod runs;
mod spelling;

pub use character::{Front, front_of};
pub use runs::{
    blank_run, comment_run, digit_run, is_escapable, is_name_byte, name_run, number_with, plain_run,
};
pub use spelling::{mark_of, name_token};
