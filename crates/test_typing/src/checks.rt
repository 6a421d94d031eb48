// Texts of programs, with what `check` and `derive` answer: each kind of refusal, and derivations in both forms. Tests only.

mod rows;

pub use rows::programs_are_checked;
