//! Parts of the lines of a derivation, read: patterns, types, certificates.
#![tactic(auto)]

mod certificates;
mod patterns;
mod room;
mod tables;
mod types;

pub use certificates::{number_of, read_cert, read_certs, read_numbers};
pub use patterns::{Unread, place_of, read_pattern};
pub use room::room_for;
pub use tables::{InterfaceNames, find_interface};
pub use types::{Mailbox, read_needs, read_type};
