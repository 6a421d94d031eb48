// Programs that are ready to run: with the free variables of their nodes.

mod executable;
mod free_variables;
mod variables;

pub use executable::Executable;
pub(crate) use variables::AtHand;
use variables::Variables;
