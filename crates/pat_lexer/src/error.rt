// Why a text is refused.
use std::alloc::{AllocError, AllocFailed};
use thiserror::Error;

/// Why a text is refused.
#[derive(Clone, Copy, Debug, PartialEq, Eq, Error)]
pub enum LexError {
    /// At this offset stands no token, blank or comment.
    #[error("BadToken")]
    BadToken(u32),
    /// At this offset stands an integer above 9223372036854775807.
    #[error("NumberTooWide")]
    NumberTooWide(u32),
    /// Memory ran out.
    #[error("NoMemory")]
    NoMemory,
}

// Written out for each error type: the gate takes no `impl` that a macro of the repository wrote.
impl From<AllocError> for LexError {
    ghost use Rattle.std.specs.Prelude.{◌≡◌};
    ghost use Rattle.pat_lexer.specs.declared.error.LexError.TheVariants.{NoMemory};

    ghost from_gives = { λ _ e. e ≡ NoMemory };

    fn from(_error: AllocError) -> LexError {
        LexError::NoMemory
    }
}

impl<T: Drop> From<AllocFailed<T>> for LexError {
    ghost use Rattle.std.specs.Prelude.{◌≡◌};
    ghost use Rattle.pat_lexer.specs.declared.error.LexError.TheVariants.{NoMemory};

    ghost from_gives = { λ _ e. e ≡ NoMemory };

    fn from(_error: AllocFailed<T>) -> LexError {
        LexError::NoMemory
    }
}
