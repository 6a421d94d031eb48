// The variables in scope, found by name.
ghost use Rattle.std.specs.Prelude.{◌≡◌, ◌∷◌, ◌≤◌, [], List, ℕ, length, drop, map, option_copied, option_map, OnOk, OnErr};
ghost use Rattle.pat_resolver_spec.specs.Scopes.{variable_of};
ghost use Rattle.pat_resolver_heads.specs.tables.Views.{scope_view, variable_view};
ghost use Rattle.pat_resolver_heads.specs.tables.Innermost.{innermost, shadowed_in, known_top};
ghost use Rattle.pat_resolver_heads.specs.declared.tables.scope.Variable.{Variable};

use crate::tables::known::set_known;
use crate::tables::name_ref::NameRef;
use indexmap::IndexMap;
use pat_core::Kind;
use pat_sequences::{Stack, Text};
use std::alloc::{AllocError, Global};
use std::marker::Model;

/// A variable in scope: its name, its number in its function, and its kind.
#[derive(Drop)]
pub struct Variable<'a> {
    pub name: NameRef<'a>,
    pub number: u32,
    pub kind: Kind,
}

/// A variable, and the place of the one that its name stood for outside.
#[derive(Drop)]
struct Entry<'a> {
    variable: Variable<'a>,
    shadowed: Option<usize>,
}

/// The variables in scope, the innermost first. A name stands for the innermost variable that has it. A look-up is one of a
/// hash table, which copies no name and keeps each that it had once, with the place of its innermost variable while there is
/// one. Places are counted from the outermost.
pub struct ScopeTable<'a> {
    entries: Stack<Entry<'a>>,
    places: IndexMap<&'a [u8], Option<usize>>,
}

impl<'a> Drop for ScopeTable<'a> {
    fn drop(self) {
        let ScopeTable {
            entries: _,
            places: _,
        } = self;
    }
}

impl<'a> Model for ScopeTable<'a> {
    ghost Value = { List Variable };

    ghost view = { λ t. map (λ e. e.variable) t.entries };

    ghost invariant = { λ t. ((x : List ℕ) → known_top x t.places.entries ≡ innermost x (map (λ e. e.variable) t.entries)) × (map (λ e. e.shadowed) t.entries ≡ shadowed_in (map (λ e. e.variable) t.entries)) };
}

impl<'a> ScopeTable<'a> {
    /// No variable. It takes no memory.
    pub fn new(alloc: Global) -> Self
        ensures { result ≡ [] }
    {
        ScopeTable {
            entries: Stack::new(alloc),
            places: IndexMap::new(alloc),
        }
    }

    /// The number of variables.
    pub fn len(&self) -> usize
        ensures { result ≡ length self.now }
    {
        self.entries.len()
    }

    /// Brings a variable into scope. An error leaves the table as it was.
    pub fn push(&mut self, name: &'a Text, number: u32, kind: Kind) -> Result<(), AllocError>
        ensures pushed { OnOk result (self.new ≡ record { name = name.now; number = number; kind = kind } ∷ self.old) }
        ensures kept { OnErr result (self.new ≡ self.old) }
    {
        let place = self.entries.len();
        let shadowed = self.places.insert(name.as_bytes(), Some(place))?.flatten();
        let variable = Variable {
            name: NameRef::new(name),
            number,
            kind,
        };
        match self.entries.push(Entry { variable, shadowed }) {
            Ok(()) => Ok(()),
            Err(_) => {
                set_known(&mut self.places, name, shadowed);
                Err(AllocError)
            }
        }
    }

    /// Takes the innermost variables out of scope, so many of them.
    pub fn pop(&mut self, count: usize)
        requires { count ≤ length self.old }
        ensures { self.new ≡ drop count self.old }
    {
        for _ in 0..count {
            self.pop_one();
        }
    }

    /// Takes the innermost variable out of scope, if there is one.
    fn pop_one(&mut self)
        ensures { self.new ≡ drop 1 self.old }
    {
        match self.entries.pop() {
            None => {}
            Some(entry) => match self.places.get_mut(entry.variable.name.as_bytes()) {
                None => {}
                Some(place) => *place = entry.shadowed,
            },
        }
    }

    /// The place of the variable that a name stands for.
    fn place_of(&self, name: &Text) -> Option<usize>
        ensures { result ≡ innermost name.now self.now }
    {
        self.places.get(name.as_bytes()).copied().flatten()
    }

    /// The variable that a name stands for.
    pub fn find(&self, name: &Text) -> Option<&Variable<'a>>
        ensures { option_map variable_view (option_copied result) ≡ variable_of (scope_view self.now) name.now }
    {
        match self.place_of(name) {
            None => None,
            Some(place) => Some(&self.entries.as_slice()[place].variable),
        }
    }
}
