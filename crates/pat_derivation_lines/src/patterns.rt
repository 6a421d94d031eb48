// Patterns of derivations, read from their text.

mod parts;
mod reading;
mod unread;
mod waiting;
mod words;

pub use reading::read_pattern;
pub use unread::Unread;
pub use words::place_of;
