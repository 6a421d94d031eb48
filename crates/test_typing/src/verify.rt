// `verify` on whole inputs.

mod rows;

pub use rows::both_parts_are_verified;
