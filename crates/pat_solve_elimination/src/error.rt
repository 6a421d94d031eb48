// Why a round gives no values.
ghost use Rattle.std.specs.Prelude.{◌≡◌};
ghost use Rattle.pat_solve_elimination.specs.declared.error.RoundError.TheVariants.{NoMemory};

use std::alloc::{AllocError, AllocFailed};

/// Why a round gives no values.
#[derive(Debug, Drop)]
pub enum RoundError {
    /// Replacing would build a pattern past 65,536 nodes or 16,384 levels.
    TooLarge,
    /// There was no memory.
    NoMemory,
}

impl From<AllocError> for RoundError {
    ghost from_gives = { λ _ e. e ≡ NoMemory };

    fn from(_error: AllocError) -> RoundError {
        RoundError::NoMemory
    }
}

impl<T: Drop> From<AllocFailed<T>> for RoundError {
    ghost from_gives = { λ _ e. e ≡ NoMemory };

    fn from(_error: AllocFailed<T>) -> RoundError {
        RoundError::NoMemory
    }
}
