// Why a step wasn't taken.
ghost use Rattle.std.specs.Prelude.{◌≡◌};
ghost use Rattle.pat_reduce_values.specs.declared.error.StepError.TheVariants.{NoMemory};

use std::alloc::{AllocError, AllocFailed};
use thiserror::Error;

/// Why a step wasn't taken.
#[derive(Clone, Copy, Debug, PartialEq, Eq, Error)]
pub enum StepError {
    /// The step isn't enabled.
    #[error("Disabled")]
    Disabled,
    #[error("NoMemory")]
    NoMemory,
}

impl From<AllocError> for StepError {
    ghost from_gives = { λ _ e. e ≡ NoMemory };

    fn from(_: AllocError) -> Self {
        StepError::NoMemory
    }
}

impl<T: Drop> From<AllocFailed<T>> for StepError {
    ghost from_gives = { λ _ e. e ≡ NoMemory };

    fn from(_: AllocFailed<T>) -> Self {
        StepError::NoMemory
    }
}
