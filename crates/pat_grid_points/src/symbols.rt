// Patterns laid out flat: a list of symbols that name one another by number, parts before the whole.

mod laying;
mod symbol;

pub use laying::{has_tags, lay_out, lay_out_all};
pub use symbol::{Role, Symbol};
