//! Definitions of the text of a derivation, and of a pattern over numbered tags, and how they are read.
#![tactic(auto)]

mod patterns;
