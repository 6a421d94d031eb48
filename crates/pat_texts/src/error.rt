// Why a text is not read.
use thiserror::Error;

/// Why a text is not read.
#[derive(Clone, Copy, Debug, PartialEq, Eq, Error)]
pub enum TextError {
    /// The offset at which the first line that isn't spelled begins.
    #[error("BadText({0})")]
    BadText(u32),
    #[error("NoMemory")]
    NoMemory,
}
