// The reserved words.

/// A reserved word.
#[derive(Clone, Copy, Debug, PartialEq, Eq)]
pub enum Reserved {
    Interface,
    Def,
    Let,
    In,
    If,
    Else,
    Print,
    New,
    Spawn,
    Guard,
    Free,
    Fail,
    Receive,
    From,
    True,
    False,
    Unit,
    Bool,
    Int,
    String,
}
