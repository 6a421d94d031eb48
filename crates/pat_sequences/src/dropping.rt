// Values that are let go.

/// Lets a value go. As a call it keeps the drop of a type out of the crate that calls it.
pub fn let_go<T: Drop>(_value: T) {}
