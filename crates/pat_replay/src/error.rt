// Why a history wasn't replayed.
ghost use Rattle.std.specs.Prelude.{◌≡◌};
ghost use Rattle.pat_replay.specs.declared.error.ReplayError.TheVariants.{NoMemory};

use std::alloc::AllocError;
use thiserror::Error;

/// Why a history wasn't replayed.
#[derive(Clone, Copy, Debug, PartialEq, Eq, Error)]
pub enum ReplayError {
    /// The first entry, counted from 0, that has no step, or has one that isn't enabled after those before it.
    #[error("RefusedAt({0})")]
    RefusedAt(u32),
    #[error("NoMemory")]
    NoMemory,
}

impl From<AllocError> for ReplayError {
    ghost from_gives = { λ _ e. e ≡ NoMemory };

    fn from(_: AllocError) -> Self {
        ReplayError::NoMemory
    }
}
