// Where something stands in a text.

/// The bytes of a text from offset `from` up to and not including offset `to`.
#[derive(Clone, Copy, Debug, PartialEq, Eq)]
pub struct Span {
    pub from: u32,
    pub to: u32,
}
