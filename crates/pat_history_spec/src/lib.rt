//! The text of a history, how it is read, and the first line of it that isn't. Definitions, no code.
#![tactic(auto)]
