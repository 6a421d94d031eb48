// What the words of a pattern are: the residual by a tag, and tests of all words at once.

mod reading;
mod residuals;

pub use reading::{covers, degree, inhabited, is_flat, nullable};
pub use residuals::residual;
