// What keeps a tree from being a program: which rule of names and kinds it breaks first, and where.

mod error;

pub use error::{ResolveError, ResolveKind};
