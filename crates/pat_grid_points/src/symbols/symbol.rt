// Symbols: the heads of patterns, their parts being named by number.

/// The head of a pattern. Its parts are named by the numbers of their symbols.
#[derive(Clone, Copy, Debug)]
pub enum Symbol {
    /// No word.
    Zero,
    /// The empty word.
    One,
    /// The word of one message with the tag.
    Tag(u8),
    /// A sum of two patterns.
    Sum(usize, usize),
    /// A product of two patterns.
    Prod(usize, usize),
    /// A star of a pattern.
    Star(usize),
    /// A variable that has a lower bound.
    Lower(u32),
    /// A variable whose words are given.
    Given(u32),
}

/// What the variables of a pattern stand for.
#[derive(Clone, Copy, Debug)]
pub enum Role {
    /// Each has a lower bound.
    Lower,
    /// The words of each are given.
    Given,
}
