//! What written programs and numbered ones share: base types, polarities and operators.
#![tactic(auto)]

/// A base type.
#[derive(Clone, Copy, Debug, PartialEq, Eq)]
pub enum Base {
    Unit,
    Bool,
    Int,
    Str,
}

/// Whether a mailbox is sent to or received from.
#[derive(Clone, Copy, Debug, PartialEq, Eq)]
pub enum Polarity {
    Sending,
    Receiving,
}

/// An operator. Sums, differences and products are of integers, and wrap at 64 bits.
#[derive(Clone, Copy, Debug, PartialEq, Eq)]
pub enum Op {
    Add,
    Sub,
    Mul,
    Equal,
    Less,
}
