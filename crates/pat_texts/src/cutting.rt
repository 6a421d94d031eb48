// Texts cut at a byte, and without what they begin or end with.
ghost use Rattle.std.specs.Prelude.{◌≡◌, ◌∷◌, ◌<◌, ◌+◌, ℕ, List, length};
ghost use Rattle.pat_texts_spec.specs.Fronts.{behind as behind_of};
ghost use Rattle.pat_texts_spec.specs.Joined.{cut as cut_of, pieces, before as before_of};
ghost use Rattle.pat_texts.specs.Pieces.{seen, pair_seen, pieces_left, left};

/// What stands before the first such byte, and what behind it.
pub fn cut(text: &[u8], byte: u8) -> Option<(&[u8], &[u8])>
    ensures { pair_seen result ≡ cut_of byte text.now }
{
    for (i, own) in text.iter().enumerate() {
        if *own == byte {
            return Some((&text[..i], &text[i + 1..]));
        }
    }
    None
}

/// The first piece of a text that is cut at each such byte, and the rest.
pub fn first_piece(text: &[u8], byte: u8) -> (&[u8], Option<&[u8]>)
    ensures pieces { pieces byte text.now ≡ result.0.now ∷ pieces_left byte result.1 }
    ensures shorter { left result.1 < length text.now + 1 }
{
    match cut(text, byte) {
        Some((own, more)) => (own, Some(more)),
        None => (text, None),
    }
}

/// What stands behind these bytes, if the text begins with them.
pub fn behind<'a>(text: &'a [u8], own: &[u8]) -> Option<&'a [u8]>
    ensures { seen result ≡ behind_of own.now text.now }
{
    text.strip_prefix(own)
}

/// What stands before these bytes, if the text ends with them.
pub fn before<'a>(text: &'a [u8], own: &[u8]) -> Option<&'a [u8]>
    ensures { seen result ≡ before_of own.now text.now }
{
    text.strip_suffix(own)
}
