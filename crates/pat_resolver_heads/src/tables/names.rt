// Names in order, found by their bytes.
ghost use Rattle.std.specs.Prelude.{◌≡◌, ◌∷◌, ◌++◌, ◌<◌, [], List, ℕ, length, map, option_map, take, OnOk, OnErr, IfSome};
ghost use Rattle.pat_resolver_spec.specs.Scopes.{first_named, itself};
ghost use Rattle.pat_resolver_heads.specs.tables.Places.{place_of, IsFirst};

use crate::tables::known::set_known;
use indexmap::IndexMap;
use pat_sequences::{Sequence, Text};
use std::alloc::{AllocError, Global};
use std::marker::Model;

// So many names are looked through sooner than they are hashed.
const FEW: usize = 16;

/// Names in order. A name that stands more than once is found at its first place. A look-up is a look at a few names, and where there
/// are more, one look-up in a hash table. No name is copied.
pub struct NameTable<'a> {
    names: Sequence<&'a Text>,
    /// Of those behind the few.
    places: IndexMap<&'a [u8], usize>,
}

impl<'a> Drop for NameTable<'a> {
    fn drop(self) {
        let NameTable {
            names: _,
            places: _,
        } = self;
    }
}

impl<'a> Model for NameTable<'a> {
    ghost Value = { List (List ℕ) };

    ghost view = { λ t. map (λ n. n.now) t.names };

    ghost invariant = { λ t. ((x : List ℕ) → IsFirst x (map (λ n. n.now) (take 16 t.names)) t.places.entries (map (λ n. n.now) t.names)) × (length t.names < 16 → t.places.entries ≡ []) };
}

impl<'a> NameTable<'a> {
    /// No name. It takes no memory.
    pub fn new(alloc: Global) -> Self
        ensures { result ≡ [] }
    {
        NameTable {
            names: Sequence::new(alloc),
            places: IndexMap::new(alloc),
        }
    }

    /// The number of names.
    pub fn len(&self) -> usize
        ensures { result ≡ length self.now }
    {
        self.names.len()
    }

    /// Appends a name. An error leaves the table as it was.
    pub fn push(&mut self, name: &'a Text) -> Result<(), AllocError>
        ensures pushed { OnOk result (self.new ≡ self.old ++ name.now ∷ []) }
        ensures kept { OnErr result (self.new ≡ self.old) }
    {
        let place = self.names.len();
        self.names.push(name)?;
        if place < FEW {
            return Ok(());
        }
        match self.places.insert(name.as_bytes(), place) {
            Ok(None) => Ok(()),
            // A name that stood there before keeps its first place.
            Ok(Some(first)) => {
                set_known(&mut self.places, name, first);
                Ok(())
            }
            Err(_) => {
                let _ = self.names.pop();
                Err(AllocError)
            }
        }
    }

    /// The first place of a name, if it is there.
    pub fn find(&self, name: &Text) -> Option<usize>
        ensures below { IfSome result (λ i. i < length self.now) }
        ensures place { result ≡ option_map (λ f. f.0) (first_named itself name.now self.now) }
    {
        match place_among(name, self.few()) {
            Some(place) => Some(place),
            None => self.places.get(name.as_bytes()).copied(),
        }
    }

    // The names that are looked through.
    fn few(&self) -> &[&'a Text]
        ensures { map (λ n. n.now) result.now ≡ take 16 self.now }
    {
        let names = self.names.as_slice();
        &names[..FEW.min(names.len())]
    }
}

// The first place of the name among these.
fn place_among(name: &Text, names: &[&Text]) -> Option<usize>
    ensures { result ≡ place_of name.now (map (λ n. n.now) names.now) }
{
    for (place, other) in names.iter().enumerate() {
        if other.as_bytes() == name.as_bytes() {
            return Some(place);
        }
    }
    None
}
