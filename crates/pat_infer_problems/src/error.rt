// Why there is no problem.
ghost use Rattle.std.specs.Prelude.{◌≡◌};
ghost use Rattle.pat_infer_problems.specs.declared.error.InferError.TheVariants.{NoMemory};

use pat_syntax::Span;
use std::alloc::{AllocError, AllocFailed};

/// A rule of backward typing; where a term breaks several, the first of this list is named.
#[derive(Clone, Copy, Debug, PartialEq, Eq)]
pub enum Rule {
    /// A call or a send is given a mailbox more than once.
    Alias,
    /// What the bound part of a `let` needs as returnable, the body needs too; or a clause needs the variable of its guard.
    Order,
    /// Both parts of a `let` receive from a variable.
    Double,
    /// One branch receives from a variable, and another doesn't.
    Branch,
    /// A clause with a mailbox among its payloads needs a variable that isn't one of its own names.
    Payload,
    /// The clauses of a guard don't cover its pattern.
    Covers,
    /// A receiving name isn't needed.
    Unused,
    /// A name, a new mailbox or a result has the other polarity than needed.
    Polarity,
    /// A second-class name is needed as returnable.
    Second,
}

/// Why a program has no problem.
#[derive(Clone, Copy, Debug, PartialEq, Eq)]
pub enum InferError {
    /// The first broken rule, and where it is broken. The program isn't typable.
    Untypable { span: Span, rule: Rule },
    NoMemory,
}

// Written out for each error type: the gate takes no `impl` that a macro of the repository wrote.
impl From<AllocError> for InferError {
    ghost from_gives = { λ _ e. e ≡ NoMemory };

    fn from(_: AllocError) -> Self {
        InferError::NoMemory
    }
}

impl<T: Drop> From<AllocFailed<T>> for InferError {
    ghost from_gives = { λ _ e. e ≡ NoMemory };

    fn from(_: AllocFailed<T>) -> Self {
        InferError::NoMemory
    }
}
