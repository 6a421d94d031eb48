// Environments as lists of variables with types: look-ups, and lists of names.

mod entries;
mod lookups;
mod names;

pub use entries::{ascends, copy_of, find, made_returnable, names_of, push_without, without};
pub use lookups::LookUps;
pub use names::{holds, names_besides, others, others_of, then_others, with_names_of};
