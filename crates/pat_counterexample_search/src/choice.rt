// What a tree has at its root.

/// A symbol and a point, by their numbers.
#[derive(Clone, Copy, Debug)]
pub struct Place {
    pub symbol: usize,
    pub number: usize,
}

/// The root of a tree, and the places of its parts.
#[derive(Clone, Copy, Debug)]
pub enum Choice {
    Empty,
    Tag(u8),
    Left(Place),
    Right(Place),
    Both(Place, Place),
    StarEnd,
    StarMore(Place, Place),
    Lower(Place),
}
