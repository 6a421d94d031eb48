//! Derivations as the code has them, and environments as lists.
#![tactic(auto)]

mod data;
mod environments;

pub use data::{Cert, Derivation, DerivedNode, VarValue};
pub use environments::{
    LookUps, ascends, copy_of, find, holds, made_returnable, names_besides, names_of, others,
    others_of, push_without, then_others, with_names_of, without,
};
