// Interfaces, and the heads of functions, read by descent.

mod functions;
mod interfaces;

pub use functions::{FunctionSignature, signature};
pub use interfaces::interface;
