// A text that contracts see as the list of its bytes.
ghost use Rattle.std.specs.Prelude.{◌≡◌, ◌≤◌, [], length, IfOk, IsTrue, ◌↔◌};

use std::alloc::{AllocError, Global};
use std::marker::Model;

/// How many bytes lie in a text itself, where it has no more: nearly all names and numbers.
const INLINE: usize = 15;

// A text moves with the tokens and trees that hold it, so it has three words, and what is long stands in a box.
#[derive(Drop)]
enum Bytes {
    Inline(u8, [u8; INLINE]),
    Boxed(Box<Vec<u8>>),
}

/// A text, by its bytes. A short one takes no memory of its own.
#[derive(Drop)]
pub struct Text {
    bytes: Bytes,
}

impl Model for Text {
    ghost use Rattle.std.specs.Prelude.{List, ℕ};
    ghost use Rattle.pat_sequences.specs.Bytes.{bytes_view, IsSound};

    ghost Value = { List ℕ };

    ghost view = { λ t. bytes_view t.bytes };

    ghost invariant = { λ t. IsSound t.bytes };
}

impl Text {
    /// The text without bytes.
    pub fn empty() -> Text
        ensures { result ≡ [] }
    {
        Text {
            bytes: Bytes::Inline(0, [0; INLINE]),
        }
    }

    /// A text of these bytes.
    pub fn from_slice(alloc: Global, bytes: &[u8]) -> Result<Text, AllocError>
        ensures { IfOk result (λ t. t ≡ bytes.now) }
    {
        if bytes.len() <= INLINE {
            return Ok(Text::inline(bytes));
        }
        let bytes = Vec::from_slice(alloc, bytes)?;
        Ok(Text {
            bytes: Bytes::Boxed(Box::new(alloc, bytes)?),
        })
    }

    fn inline(bytes: &[u8]) -> Text
        requires { length bytes.now ≤ 15 }
        ensures { result ≡ bytes.now }
    {
        let mut held = [0; INLINE];
        held[..bytes.len()].copy_from_slice(bytes);
        Text {
            bytes: Bytes::Inline(bytes.len() as u8, held),
        }
    }

    /// Its bytes.
    pub fn as_bytes(&self) -> &[u8]
        ensures { result.now ≡ self.now }
    {
        match &self.bytes {
            Bytes::Inline(len, held) => &held[..usize::from(*len)],
            Bytes::Boxed(bytes) => bytes.as_slice(),
        }
    }

    /// A second text of the same bytes.
    pub fn copy(&self, alloc: Global) -> Result<Text, AllocError>
        ensures { IfOk result (λ t. t ≡ self.now) }
    {
        if let Bytes::Inline(len, held) = &self.bytes {
            let bytes = Bytes::Inline(*len, *held);
            return Ok(Text { bytes });
        }
        Text::from_slice(alloc, self.as_bytes())
    }

    /// Whether both have the same bytes.
    pub fn is_same(&self, other: &Text) -> bool
        ensures { IsTrue result ↔ (self.now ≡ other.now) }
    {
        self.as_bytes() == other.as_bytes()
    }
}
