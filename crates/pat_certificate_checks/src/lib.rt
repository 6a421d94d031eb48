//! Certificates of a node: whether each inclusion that it needs is shown, and none is left over.
#![tactic(auto)]

mod covers;
mod grids;
mod inclusions;
mod numbering;
mod showing;
mod single;
mod trivial;

pub use inclusions::{Inclusion, Reflexive, Side, inclusion_of, reflexive_of};
pub use pat_certificate_values::form_of;
pub use showing::are_shown;
pub use single::included;
pub use trivial::{is_trivial, plain_values};
