//! Checkpoints: their text, the rules that they are checked by, and runs that go on from one. Definitions, no code of the product.
#![tactic(auto)]

mod text;
