// Texts cut at a byte where it stands in no string.
ghost use Rattle.std.specs.Prelude.{◌≡◌, ◌∷◌, ◌<◌, ◌+◌, length};
ghost use Rattle.pat_checkpoint_spec.specs.text.Outside.{next_place as next_of, is_cut as is_cut_of, cut_outside as cut_of, pieces_outside};
ghost use Rattle.pat_texts.specs.Pieces.{pair_seen, left};
ghost use Rattle.pat_checkpoint_text.specs.Places.{place_view, pieces_left};

/// Where a byte stands.
#[derive(Clone, Copy, Drop)]
enum Place {
    /// In no string.
    Outside,
    Inside,
    /// Behind a backslash in a string.
    Escaped,
}

/// Where the next byte stands.
fn next_place(place: Place, byte: u8) -> Place
    ensures { place_view result ≡ next_of (place_view place) byte }
{
    match place {
        Place::Outside => {
            if byte == b'"' {
                Place::Inside
            } else {
                Place::Outside
            }
        }
        Place::Inside => {
            if byte == b'"' {
                Place::Outside
            } else if byte == b'\\' {
                Place::Escaped
            } else {
                Place::Inside
            }
        }
        Place::Escaped => Place::Inside,
    }
}

/// Whether the text is cut at the byte.
fn is_cut(place: Place, byte: u8, own: u8) -> bool
    ensures { result ≡ is_cut_of (place_view place) byte own }
{
    match place {
        Place::Outside => own == byte,
        Place::Inside => false,
        Place::Escaped => false,
    }
}

/// What stands before the first such byte that is in no string, and what behind it.
pub fn cut_outside(text: &[u8], byte: u8) -> Option<(&[u8], &[u8])>
    ensures { pair_seen result ≡ cut_of byte text.now }
{
    let mut place = Place::Outside;
    for (i, own) in text.iter().enumerate() {
        if is_cut(place, byte, *own) {
            return Some((&text[..i], &text[i + 1..]));
        }
        place = next_place(place, *own);
    }
    None
}

/// The first piece of a text that is cut at each such byte, and the rest.
pub fn first_piece(text: &[u8], byte: u8) -> (&[u8], Option<&[u8]>)
    ensures pieces { pieces_outside byte text.now ≡ result.0.now ∷ pieces_left byte result.1 }
    ensures shorter { left result.1 < length text.now + 1 }
{
    match cut_outside(text, byte) {
        Some((own, more)) => (own, Some(more)),
        None => (text, None),
    }
}
