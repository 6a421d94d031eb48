// The types of signatures, where a variable stands for each pattern that isn't written.

mod signatures;

pub use signatures::{Signature, open_signatures};
