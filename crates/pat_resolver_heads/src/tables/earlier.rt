// The names before a place where no name may stand twice.
ghost use Rattle.std.specs.Prelude.{◌≡◌, ◌∷◌, ◌++◌, ◌<◌, ◌≤◌, [], List, ℕ, length, map, reverse, not, IsTrue, IsFalse, IfOk, OnErr};
ghost use Rattle.pat_resolver_spec.specs.Scopes.{is_one_of};

use indexmap::IndexSet;
use pat_sequences::{Sequence, Text};
use std::alloc::{AllocError, Global};
use std::marker::Model;

// So many names are looked through sooner than they are hashed.
const FEW: usize = 16;

/// Names that differ, the last first. To add one is a look at a few names, and where there are more, one look-up in a hash table.
/// No name is copied.
pub struct EarlierNames<'a> {
    few: Sequence<&'a Text>,
    /// None before the few are there.
    others: IndexSet<&'a [u8]>,
}

impl<'a> Drop for EarlierNames<'a> {
    fn drop(self) {
        let EarlierNames { few: _, others: _ } = self;
    }
}

impl<'a> Model for EarlierNames<'a> {
    ghost Value = { List (List ℕ) };

    ghost view = { λ t. reverse (map (λ n. n.now) t.few ++ map (λ k. k.now) t.others.keys) };

    ghost invariant = { λ t. (length t.few ≤ 16) × (length t.few < 16 → t.others.keys ≡ []) };
}

impl<'a> EarlierNames<'a> {
    /// No name. It takes no memory.
    pub fn new(alloc: Global) -> Self
        ensures { result ≡ [] }
    {
        EarlierNames {
            few: Sequence::new(alloc),
            others: IndexSet::new(alloc),
        }
    }

    /// The number of names.
    pub fn len(&self) -> usize
        ensures { result ≡ length self.now }
    {
        self.few.len() + self.others.len()
    }

    /// Puts a name behind the others, if it is none of them. Answers whether it is new. A name that is not new, or an error,
    /// leaves the names as they were.
    pub fn add(&mut self, name: &'a Text) -> Result<bool, AllocError>
        ensures new { IfOk result (λ b. b ≡ not (is_one_of name.now self.old)) }
        ensures added { IfOk result (λ b. IsTrue b → self.new ≡ name.now ∷ self.old) }
        ensures repeated { IfOk result (λ b. IsFalse b → self.new ≡ self.old) }
        ensures kept { OnErr result (self.new ≡ self.old) }
    {
        if is_among(name, self.few.as_slice()) {
            return Ok(false);
        }
        if self.few.len() < FEW {
            self.few.push(name)?;
            return Ok(true);
        }
        let new = self.others.insert(name.as_bytes())?;
        Ok(new)
    }
}

// Whether the name is one of these.
fn is_among(name: &Text, names: &[&Text]) -> bool
    ensures { result ≡ is_one_of name.now (map (λ n. n.now) names.now) }
{
    for other in names {
        if other.as_bytes() == name.as_bytes() {
            return true;
        }
    }
    false
}
