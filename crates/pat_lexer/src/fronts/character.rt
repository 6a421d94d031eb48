// The character that bytes begin.
ghost use Rattle.pat_lexer.specs.fronts.Fronts.{IsCut, FrontIs};

use std::str;

/// What stands at the front of some bytes.
pub enum Front {
    Whole(char),
    /// The bytes end within a character.
    Unfinished,
    /// No character, whatever follows.
    Bad,
}

/// What stands at the front of bytes that begin with no whole character before their last byte.
pub fn front_of(bytes: &[u8]) -> Front
    ensures { IsCut bytes.now → FrontIs result bytes.now }
{
    match str::from_utf8(bytes) {
        Ok(text) => match text.chars().next() {
            Some(character) => Front::Whole(character),
            None => Front::Unfinished,
        },
        Err(error) => match error.error_len() {
            Some(_) => Front::Bad,
            None => Front::Unfinished,
        },
    }
}
