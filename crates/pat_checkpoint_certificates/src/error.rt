// Why there is no checkpoint.
ghost use Rattle.std.specs.Prelude.{◌≡◌, ◌+◌, IfOk};
ghost use Rattle.pat_checkpoint_certificates.specs.Certified.{IsLine};
ghost use Rattle.pat_checkpoint_certificates.specs.declared.error.CertifyError.TheVariants.{NoMemory};

use std::alloc::AllocError;

/// Why a configuration has no checkpoint.
#[derive(Clone, Copy, Debug, PartialEq, Eq)]
pub enum CertifyError {
    /// The first line of the text, counted from 1, that needs an inclusion which isn't trivial and for which no certificate is found.
    Unshown(usize),
    NoMemory,
}

impl From<AllocError> for CertifyError {
    ghost from_gives = { λ _ e. e ≡ NoMemory };

    fn from(_: AllocError) -> Self {
        CertifyError::NoMemory
    }
}

/// The line that is so many behind this one.
pub fn line_after(line: usize, count: usize) -> Result<usize, AllocError>
    ensures { IfOk result (λ next. next ≡ line + count) }
{
    match line.checked_add(count) {
        None => Err(AllocError),
        Some(next) => Ok(next),
    }
}

/// That the line can't be shown that is so many behind this one.
pub fn unshown(line: usize, count: usize) -> CertifyError
    ensures { IsLine (line + count) result }
{
    match line.checked_add(count) {
        None => CertifyError::NoMemory,
        Some(own) => CertifyError::Unshown(own),
    }
}
