// A name by its bytes, without a copy of them.
ghost use Rattle.std.specs.Prelude.{◌≡◌, List, ℕ};

use pat_sequences::Text;
use std::marker::Model;

/// A name that stands in a tree. Its value is its bytes.
#[derive(Drop)]
pub struct NameRef<'a> {
    text: &'a Text,
}

impl<'a> Model for NameRef<'a> {
    ghost Value = { List ℕ };

    ghost view = { λ n. n.text.now };
}

impl<'a> NameRef<'a> {
    /// The name that stands there.
    pub fn new(text: &'a Text) -> Self
        ensures { result ≡ text.now }
    {
        NameRef { text }
    }

    /// Its bytes.
    pub fn as_bytes(&self) -> &'a [u8]
        ensures { result.now ≡ self.now }
    {
        self.text.as_bytes()
    }
}
