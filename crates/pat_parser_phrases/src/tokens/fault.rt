// Why tokens are no program.
ghost use Rattle.std.specs.Prelude.{◌≡◌, ◌+◌, nat_lt};
ghost use Rattle.pat_parser_phrases.specs.declared.tokens.fault.ParseError.TheVariants.{NoMemory};
ghost use Rattle.pat_limits.specs.Limits.{most_open};

use pat_limits::MOST_OPEN;
use std::alloc::{AllocError, AllocFailed};
use thiserror::Error;

/// Why tokens are refused, with the offset at which the first token begins that is refused. Where the tokens end too
/// early, it is the end of the text.
#[derive(Clone, Copy, Debug, PartialEq, Eq, Error)]
pub enum ParseError {
    /// The tokens before begin a program, and with this one they begin none.
    #[error("Unexpected")]
    Unexpected(u32),
    /// The token is expected, and is the 256th open bracket or operator or the 4,096th open statement.
    #[error("TooDeep")]
    TooDeep(u32),
    /// Memory ran out.
    #[error("NoMemory")]
    NoMemory,
}

// Written out for each error type: the gate takes no `impl` that a macro of the repository wrote.
impl From<AllocError> for ParseError {
    ghost from_gives = { λ _ e. e ≡ NoMemory };

    fn from(_e: AllocError) -> ParseError {
        ParseError::NoMemory
    }
}

impl<T: Drop> From<AllocFailed<T>> for ParseError {
    ghost from_gives = { λ _ e. e ≡ NoMemory };

    fn from(_e: AllocFailed<T>) -> ParseError {
        ParseError::NoMemory
    }
}

/// Whether one more bracket or operator may be open.
pub fn has_room(opened: u16, operators: u16) -> bool
    ensures { result ≡ nat_lt (opened + operators) most_open }
{
    u64::from(opened) + u64::from(operators) < MOST_OPEN
}
