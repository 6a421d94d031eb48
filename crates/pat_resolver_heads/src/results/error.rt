// Why a tree is no program.
ghost use Rattle.std.specs.Prelude.{◌≡◌};
ghost use Rattle.pat_resolver_heads.specs.declared.results.error.ResolveError.TheVariants.{NoMemory};

use pat_syntax::Span;
use std::alloc::{AllocError, AllocFailed};

/// A rule of names and kinds.
#[derive(Clone, Copy, Debug, PartialEq, Eq)]
pub enum ResolveKind {
    /// A function, an interface or a variable isn't declared or not in scope, or there is no `main`.
    UnknownName,
    /// A name is declared twice, or a guard has two clauses for the same.
    Twice,
    /// Another number of arguments than declared.
    WrongArity,
    /// A term or an expression has another kind than needed.
    WrongKind,
    /// A tag isn't of the interface.
    ForeignTag,
    /// A sending type's pattern has no word.
    EmptySending,
    /// An interface has more than 32 tags.
    TooManyTags,
}

/// Why a tree is no program.
#[derive(Clone, Copy, Debug, PartialEq, Eq)]
pub enum ResolveError {
    /// The first broken rule, and where it is broken.
    Broken { kind: ResolveKind, span: Span },
    NoMemory,
}

// Written out for each error type: the gate takes no `impl` that a macro of the repository wrote.
impl From<AllocError> for ResolveError {
    ghost from_gives = { λ _ e. e ≡ NoMemory };

    fn from(_: AllocError) -> Self {
        ResolveError::NoMemory
    }
}

impl<T: Drop> From<AllocFailed<T>> for ResolveError {
    ghost from_gives = { λ _ e. e ≡ NoMemory };

    fn from(_: AllocFailed<T>) -> Self {
        ResolveError::NoMemory
    }
}
