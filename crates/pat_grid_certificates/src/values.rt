// Values of variables, and right sides.

use pat_bags::Bag;
use pat_patterns::Pattern;
use pat_sequences::Sequence;

/// The value of a variable.
#[derive(Drop)]
pub enum VarValue {
    /// The words of a pattern.
    Pattern(Pattern),
    /// The words that, cut at `k`, are one of the points.
    Grid { k: u32, points: Sequence<Bag> },
}

/// The right side of an inclusion.
#[derive(Drop)]
pub enum Right {
    /// A pattern without variables.
    Pattern(Pattern),
    /// A variable, by its place among the values.
    Var(u32),
}
