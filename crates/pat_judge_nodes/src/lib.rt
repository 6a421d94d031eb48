//! The rules of derivations that look at one node: uses, scopes, drops.
#![tactic(auto)]

mod drops;
mod scopes;
mod uses;

pub use drops::drops_well;
pub use scopes::{in_scope, names_in_scope, nodes_above};
pub use uses::{
    Demand, Signature, demands, from_open, has_no_alias, payloads_stand_apart, signatures,
    uses_well,
};
