// Three rules at a node of a derivation: what is used is there and is used as it may be, no mailbox is named twice in one term,
// and beside a mailbox that was received a body uses the names of its clause alone.

mod alias;
mod payloads;
mod settled;
mod uses;

pub use alias::has_no_alias;
pub use pat_obligations::{Demand, Signature, demands, signatures};
pub use payloads::payloads_stand_apart;
pub use settled::from_open;
pub use uses::uses_well;
