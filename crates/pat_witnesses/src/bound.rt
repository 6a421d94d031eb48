// Trees of lower bounds.

/// A tree that shows a word of a pattern whose variables have lower bounds: what is chosen at each place of the pattern, and, at a
/// variable, in its lower bound. Dropping and copying one goes as deep as the tree; a search for a tree makes none of more than
/// 4,096 nodes.
#[derive(Debug, Drop)]
pub enum Bound {
    /// At 1: the empty word.
    Empty,
    /// At a tag: its word.
    Tag,
    /// At a sum: a word of its left side.
    Left(Box<Bound>),
    /// At a sum: a word of its right side.
    Right(Box<Bound>),
    /// At a product: a word of each side.
    Both(Box<Bound>, Box<Bound>),
    /// At a star: the empty word.
    StarEnd,
    /// At a star: a word of its part that isn't empty, and then a word of the star.
    StarMore(Box<Bound>, Box<Bound>),
    /// At a variable: a word of its lower bound.
    Lower(Box<Bound>),
}
