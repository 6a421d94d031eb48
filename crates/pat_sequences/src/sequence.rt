// A vector that contracts see as the list of its items.
ghost use Rattle.std.specs.Prelude.{◌≡◌, ◌==◌, ◌<◌, List, [], ◌∷◌, ◌++◌, length, OnOk, OnErr, IfSome, IfNone, Some, slice_get, slice_set, remove};

use std::alloc::{AllocError, Global};
use std::marker::Model;
use std::mem;

/// A vector whose capacity contracts don't see: they see the list of its items.
#[derive(Drop)]
pub struct Sequence<T> {
    pub items: Vec<T>,
}

impl<T> Model for Sequence<T> {
    ghost Value = { List T };

    ghost view = { λ s. s.items.items };
}

impl<T> Sequence<T> {
    /// The empty sequence. It takes no memory.
    pub fn new(alloc: Global) -> Self
        ensures { result ≡ [] }
    {
        Sequence {
            items: Vec::new(alloc),
        }
    }

    /// The sequence of the items of a vector.
    pub fn from_vec(items: Vec<T>) -> Self
        ensures { result ≡ items.items }
    {
        Sequence { items }
    }

    /// Its items.
    pub fn as_slice(&self) -> &[T]
        ensures { result.now ≡ self.now }
    {
        self.items.as_slice()
    }

    /// The number of items.
    pub fn len(&self) -> usize
        ensures { result ≡ length self.now }
    {
        self.items.len()
    }

    /// Whether there is no item.
    pub fn is_empty(&self) -> bool
        ensures { result ≡ (length self.now == 0) }
    {
        self.items.is_empty()
    }

    /// Appends an item. An error leaves the sequence as it was.
    pub fn push(&mut self, item: T) -> Result<(), AllocError>
    where
        T: Drop,
        ensures ok { OnOk result (self.new ≡ self.old ++ item ∷ []) }
        ensures err { OnErr result (self.new ≡ self.old) }
    {
        self.items.push(item)?;
        Ok(())
    }

    /// Takes the last item.
    pub fn pop(&mut self) -> Option<T>
        ensures some { IfSome result (λ x. self.old ≡ self.new ++ x ∷ []) }
        ensures none { IfNone result ((self.old ≡ []) × (self.new ≡ [])) }
    {
        self.items.pop()
    }

    /// Puts an item at a place, and gives back the one that stood there.
    pub fn replace(&mut self, place: usize, item: T) -> T
        requires { place < length self.old }
        ensures before { slice_get self.old place ≡ Some result }
        ensures after { self.new ≡ slice_set self.old place item }
    {
        mem::replace(&mut self.items[place], item)
    }

    /// Takes out the item at a place; those behind it move up.
    pub fn remove(&mut self, place: usize) -> T
        requires { place < length self.old }
        ensures before { slice_get self.old place ≡ Some result }
        ensures after { self.new ≡ remove self.old place }
    {
        self.items.remove(place)
    }
}
