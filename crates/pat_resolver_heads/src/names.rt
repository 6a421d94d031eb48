// The names of interfaces and of their tags.
ghost use Rattle.std.specs.Prelude.{◌≡◌, ◌<◌, ◌^◌, ℕ, length, map};

use crate::tables::NameTable;
use pat_sequences::{Sequence, Text};

/// The name of an interface, and those of its tags in order.
#[derive(Drop)]
pub struct InterfaceTable<'a> {
    pub name: &'a Text,
    pub tags: NameTable<'a>,
}

/// The interfaces of a tree in order, found by name.
#[derive(Drop)]
pub struct Names<'a> {
    pub interfaces: Sequence<InterfaceTable<'a>>,
    pub table: NameTable<'a>,
    ghost tied: { table ≡ map (λ i. i.name.now) interfaces },
    ghost few: { length interfaces < 2 ^ 32 },
}

impl<'a> Names<'a> {
    ghost use Rattle.std.specs.Prelude.{option_map, slice_get, IfSome, Some};
    ghost use Rattle.pat_resolver_spec.specs.Heads.{interface_named};
    ghost use Rattle.pat_resolver_heads.specs.Names.{names_view, table_view};

    /// The interface of a name, with its number.
    pub fn find(&self, name: &Text) -> Option<(u32, &InterfaceTable<'a>)>
        ensures there { IfSome result (λ f. slice_get self.now.interfaces f.0 ≡ Some f.1.now) }
        ensures found { option_map (λ f. (f.0, table_view f.1.now)) result ≡ interface_named (names_view self.now) name.now }
    {
        match self.table.find(name) {
            Some(place) => Some((place as u32, &self.interfaces.as_slice()[place])),
            None => None,
        }
    }
}
