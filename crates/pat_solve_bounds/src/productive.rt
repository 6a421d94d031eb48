// Which variables have a derivable word: the first sending one of a signature that has none.

mod counting;
mod entry;
mod spreading;
mod testing;
mod users;

pub use entry::first_unusable;
