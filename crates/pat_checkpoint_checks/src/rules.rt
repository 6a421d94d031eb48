// Why a checkpoint isn't checked.
ghost use Rattle.std.specs.Prelude.{◌≡◌};
ghost use Rattle.pat_checkpoint_checks.specs.declared.rules.CheckError.TheVariants.{NoMemory};

use pat_checkpoint_rules::CheckRule;
use std::alloc::AllocError;
use thiserror::Error;

/// Why a checkpoint isn't checked.
#[derive(Clone, Copy, Debug, PartialEq, Eq, Error)]
pub enum CheckError {
    /// The first rule that is broken.
    #[error("Bad")]
    Bad(CheckRule),
    #[error("NoMemory")]
    NoMemory,
}

impl From<AllocError> for CheckError {
    ghost from_gives = { λ _ e. e ≡ NoMemory };

    fn from(_: AllocError) -> Self {
        CheckError::NoMemory
    }
}
