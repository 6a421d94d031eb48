// What bodies look up: interfaces, tags and functions.
ghost use Rattle.std.specs.Prelude.{◌≡◌, ◌<◌, ◌≤◌, ◌^◌, [], ℕ, length, map, All};

use crate::names::Names;
use crate::patterns::{check_pattern, number_pattern};
use crate::results::ResolveError;
use crate::tables::NameTable;
use pat_core::{Interface, Sort, TagDecl};
use pat_patterns::Pattern;
use pat_sequences::{Sequence, Text};
use pat_tree::TreePattern;
use std::alloc::{AllocError, Global};

/// What is called: a function's name, and the types of its parameters and of its result.
#[derive(Drop)]
pub struct Signature<'a> {
    pub name: &'a Text,
    pub params: Sequence<Sort>,
    pub result: Sort,
}

/// The heads of a tree's declarations, each list in the order of the text, and found by name.
#[derive(Drop)]
pub struct Heads<'a> {
    pub interfaces: Sequence<Interface>,
    pub signatures: Sequence<Signature<'a>>,
    pub names: Names<'a>,
    pub functions: NameTable<'a>,
    /// No names: the tags of a number that no interface has.
    pub no_tags: NameTable<'a>,
    ghost named: { map (λ t. t.name.now) names.interfaces ≡ map (λ i. i.name) interfaces },
    ghost tagged: { map (λ t. t.tags) names.interfaces ≡ map (λ i. map (λ t. t.name) i.tags) interfaces },
    ghost called: { functions ≡ map (λ s. s.name.now) signatures },
    ghost none: { no_tags ≡ [] },
    ghost few: { length signatures < 2 ^ 32 },
    ghost few_tags: { All (λ t. length t.tags ≤ 32) names.interfaces },
}

impl<'a> Heads<'a> {
    ghost use Rattle.std.specs.Prelude.{option_map, IfOk};
    ghost use Rattle.pat_resolver_spec.specs.Heads.{function_named, tag_named, tag_names, pattern_of};
    ghost use Rattle.pat_resolver_spec.specs.Findings.{interface_called, pattern_findings};
    ghost use Rattle.pat_core.specs.Views.{tag_view};
    ghost use Rattle.pat_patterns.specs.Views.{pattern_view};
    ghost use Rattle.pat_tree.specs.Views.{pattern_view as written_view};
    ghost use Rattle.pat_resolver_heads.specs.results.Results.{Meets};
    ghost use Rattle.pat_resolver_heads.specs.Views.{heads_view, signature_view};

    /// The number of the interface of a name.
    pub fn interface_called(&self, name: &Text) -> Option<u32>
        ensures { result ≡ option_map (λ f. f.0) (interface_called (heads_view self.now) name.now) }
    {
        match self.names.table.find(name) {
            Some(place) => Some(place as u32),
            None => None,
        }
    }

    /// The function of a name, with its number.
    pub fn function_named(&self, name: &Text) -> Option<(u32, &Signature<'a>)>
        ensures { option_map (λ f. (f.0, signature_view f.1.now)) result ≡ function_named (heads_view self.now) name.now }
    {
        match self.functions.find(name) {
            Some(place) => Some((place as u32, &self.signatures.as_slice()[place])),
            None => None,
        }
    }

    /// The tag of a name of an interface, with its number.
    pub fn tag_named(&self, interface: u32, name: &Text) -> Option<(u8, &TagDecl)>
        ensures { option_map (λ f. (f.0, tag_view f.1.now)) result ≡ tag_named (heads_view self.now) interface name.now }
    {
        match self.tags_of(interface).find(name) {
            Some(place) => {
                let tags = &self.interfaces.as_slice()[interface as usize].tags;
                Some((place as u8, &tags.as_slice()[place]))
            }
            None => None,
        }
    }

    /// The names of an interface's tags. There is none where the interface isn't there.
    fn tags_of(&self, interface: u32) -> &NameTable<'a>
        ensures names { result.now ≡ tag_names (heads_view self.now) interface }
        ensures few { length result.now ≤ 32 }
        ensures there { 0 < length result.now → interface < length self.now.interfaces }
    {
        let tables = self.names.interfaces.as_slice();
        if (interface as usize) < tables.len() {
            &tables[interface as usize].tags
        } else {
            &self.no_tags
        }
    }

    /// Refuses a pattern with a tag that isn't of the interface, at the first such tag.
    pub fn check_pattern(&self, interface: u32, pattern: &TreePattern) -> Result<(), ResolveError>
        ensures { Meets result (pattern_findings (tag_names (heads_view self.now) interface) (written_view pattern.now)) }
    {
        check_pattern(self.tags_of(interface), pattern)
    }

    /// The pattern by the numbers of the interface's tags.
    pub fn number_pattern(
        &self,
        alloc: Global,
        interface: u32,
        pattern: &TreePattern,
    ) -> Result<Pattern, AllocError>
        ensures { IfOk result (λ p. pattern_view p ≡ pattern_of (tag_names (heads_view self.now) interface) (written_view pattern.now)) }
    {
        number_pattern(alloc, self.tags_of(interface), pattern)
    }
}
