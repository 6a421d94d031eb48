// Tables of names: what a name stands for.

mod earlier;
mod known;
mod name_ref;
mod names;
mod scope;

pub use earlier::EarlierNames;
pub use name_ref::NameRef;
pub use names::NameTable;
pub use scope::{ScopeTable, Variable};
