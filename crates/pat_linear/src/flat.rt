// Lists of linear sets on a stack.
ghost use Rattle.std.specs.Prelude.{◌≡◌, ◌≤◌, [], ◌∷◌, ◌++◌, length, drop, map, IfOk, OnOk};
ghost use Rattle.pat_inclusion_spec.specs.Counts.{most_tags};
ghost use Rattle.pat_inclusion_spec.specs.ClosedForms.{set_product as set_product_of};
ghost use Rattle.pat_linear.specs.Views.{set_view, sets_view, forms_view};
ghost use Rattle.pat_linear.specs.Rooms.{HasRoom};
ghost use Rattle.pat_linear.specs.Flat.{top_of, Unites, TakesFirst};

use crate::products::multiply_from;
use crate::set::LinearSet;
use pat_sequences::{Sequence, Stack};
use std::alloc::{AllocError, Global};
use std::marker::Model;

/// Lists of sets on a stack. All sets stand in one list, those of the top list last, so that two lists become one without a
/// move. Contracts see the lists, the top one first.
#[derive(Drop)]
pub struct Lists {
    sets: Sequence<LinearSet>,
    starts: Stack<usize>,
}

impl Model for Lists {
    ghost use Rattle.std.specs.Prelude.{List, length};
    ghost use Rattle.pat_linear.specs.declared.set.LinearSet.{LinearSet};

    ghost Value = { List (List LinearSet) };

    ghost use Rattle.pat_linear.specs.Flat.{lists_on, GoDown};

    ghost view = { λ l. lists_on l.sets l.starts };

    ghost invariant = { λ l. GoDown (length l.sets) l.starts };
}

impl Lists {
    /// No list, and room for so many sets.
    pub fn with_room(alloc: Global, sets: usize) -> Result<Lists, AllocError>
        ensures { IfOk result (λ lists. lists ≡ []) }
    {
        let mut room = Sequence::new(alloc);
        room.items.reserve_exact(sets)?;
        Ok(Lists {
            sets: room,
            starts: Stack::new(alloc),
        })
    }

    /// Puts a list without sets on top.
    pub fn put_none(&mut self) -> Result<(), AllocError>
        ensures { OnOk result (self.new ≡ [] ∷ self.old) }
    {
        self.starts.push(self.sets.len())
    }

    /// Puts a list of one set on top.
    pub fn put_one(&mut self, set: LinearSet) -> Result<(), AllocError>
        ensures { OnOk result (self.new ≡ (set ∷ []) ∷ self.old) }
    {
        self.put_none()?;
        self.push(set)
    }

    /// Puts a list on top.
    pub fn put(&mut self, sets: Sequence<LinearSet>) -> Result<(), AllocError>
        ensures { OnOk result (self.new ≡ sets ∷ self.old) }
    {
        self.put_none()?;
        self.replace(sets)
    }

    /// The list on top.
    pub fn top(&self) -> &[LinearSet]
        requires { 1 ≤ length self.now }
        ensures { result.now ≡ top_of self.now }
    {
        match self.starts.top() {
            None => unreachable!(),
            Some(start) => &self.sets.as_slice()[*start..],
        }
    }

    /// Appends a set to the list on top.
    pub fn push(&mut self, set: LinearSet) -> Result<(), AllocError>
        requires { 1 ≤ length self.old }
        ensures { OnOk result (self.new ≡ (top_of self.old ++ set ∷ []) ∷ drop 1 self.old) }
    {
        self.sets.push(set)
    }

    /// Takes the first set of the list on top.
    pub fn take_first(&mut self) -> LinearSet
        requires { 1 ≤ length (top_of self.old) }
        ensures { TakesFirst result self.old self.new }
    {
        match self.starts.top() {
            None => unreachable!(),
            Some(start) => self.sets.remove(*start),
        }
    }

    /// Puts the products of the set with each of those of the list on top in their place.
    pub fn multiply_each(&mut self, alloc: Global, a: &LinearSet) -> Result<(), AllocError>
        requires there { 1 ≤ length self.old }
        requires room { HasRoom (set_view a.now) (sets_view (top_of self.old)) }
        ensures { OnOk result (forms_view self.new
            ≡ map (set_product_of most_tags (set_view a.now)) (sets_view (top_of self.old)) ∷ forms_view (drop 1 self.old)) }
    {
        match self.starts.top() {
            None => unreachable!(),
            Some(start) => multiply_from(alloc, a, *start, &mut self.sets),
        }
    }

    /// Puts a list without sets in the place of the list on top.
    pub fn empty_top(&mut self)
        requires { 1 ≤ length self.old }
        ensures { self.new ≡ [] ∷ drop 1 self.old }
    {
        match self.starts.top() {
            None => unreachable!(),
            Some(start) => self.sets.items.truncate(*start),
        }
    }

    /// Joins the two lists on top, and tells how many sets the lower one had.
    pub fn unite(&mut self) -> usize
        requires { 2 ≤ length self.old }
        ensures { Unites result self.old self.new }
    {
        match (self.starts.pop(), self.starts.top()) {
            (Some(upper), Some(lower)) => upper - *lower,
            _ => unreachable!(),
        }
    }

    /// Puts other sets in the place of the list on top.
    pub fn replace(&mut self, sets: Sequence<LinearSet>) -> Result<(), AllocError>
        requires { 1 ≤ length self.old }
        ensures { OnOk result (self.new ≡ sets ∷ drop 1 self.old) }
    {
        let mut more = sets;
        match self.starts.top() {
            None => unreachable!(),
            Some(start) => self.sets.items.truncate(*start),
        }
        self.sets.items.append(&mut more.items)?;
        Ok(())
    }

    /// The one list, in no more memory than it needs: many are kept, and lists on the way may have been longer.
    pub fn into_sets(self) -> Sequence<LinearSet>
        requires { length self ≡ 1 }
        ensures { self ≡ result ∷ [] }
    {
        let mut sets = self.sets;
        sets.items.shrink_to_fit();
        sets
    }
}
