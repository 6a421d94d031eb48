// Closed forms, covers and refutations on rows worked by hand, and on small random patterns.

mod covers;
mod forms;
mod random;
mod refutations;
mod table;
