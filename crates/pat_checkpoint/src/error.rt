// Why a configuration isn't written.
ghost use Rattle.std.specs.Prelude.{◌≡◌};
ghost use Rattle.pat_checkpoint.specs.declared.error.WriteError.TheVariants.{NoMemory};

use std::alloc::AllocError;
use thiserror::Error;

/// Why a configuration isn't written.
#[derive(Clone, Copy, Debug, PartialEq, Eq, Error)]
pub enum WriteError {
    /// The first line of the text, counted from 1, that needs an inclusion which isn't trivial and for which no certificate is found.
    #[error("Unshown({0})")]
    Unshown(u32),
    #[error("NoMemory")]
    NoMemory,
}

impl From<AllocError> for WriteError {
    ghost from_gives = { λ _ e. e ≡ NoMemory };

    fn from(_: AllocError) -> Self {
        WriteError::NoMemory
    }
}
