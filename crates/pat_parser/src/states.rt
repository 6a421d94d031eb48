// The states of the parser: what it is in the middle of, and how a state is made of its parts.

mod fault;
mod frames;
mod lists;
mod place;
mod state;

pub use fault::{Fault, placed};
pub use frames::Frames;
pub use lists::{with_clause, with_decl};
pub use place::{at, begun, block, boxed_term, done, over, refused, too_deep, top};
pub use state::{
    BlockFrame, ClauseFrame, ClauseHead, Control, Defining, Frame, Guarding, LetFrame, Place, State,
};
