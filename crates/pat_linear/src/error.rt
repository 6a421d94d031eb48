// Why a pattern has no closed form.
ghost use Rattle.std.specs.Prelude.{◌≡◌};
ghost use Rattle.pat_linear.specs.declared.error.FormError.TheVariants.{NoMemory};

use std::alloc::AllocError;
use thiserror::Error;

/// Why `closed_form` gives no list.
#[derive(Debug, Drop, Error)]
pub enum FormError {
    /// The pattern, or a list that is made on the way, is larger than what is worked with.
    #[error("TooLarge")]
    TooLarge,
    /// There was no memory.
    #[error("NoMemory")]
    NoMemory,
}

impl From<AllocError> for FormError {
    ghost from_gives = { λ _ e. e ≡ NoMemory };

    fn from(_error: AllocError) -> FormError {
        FormError::NoMemory
    }
}
