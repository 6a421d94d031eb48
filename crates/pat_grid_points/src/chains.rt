// Many lists in one place.
ghost use Rattle.std.specs.Prelude.{◌≡◌, ◌≤◌, ◌<◌, ◌+◌, ◌++◌, ◌∷◌, [], ℕ, length, get_or, set, replicate, IfOk, OnOk, OnErr};
ghost use Rattle.pat_grid_points.specs.Chains.{chain, noted, from_on};

use crate::lists::{forget, push_if};
use pat_sequences::Sequence;
use std::alloc::{AllocError, Global};
use std::marker::Model;

/// Lists of numbers, the last one noted in front. All stand in one place, so memory is taken once for many short ones. Contracts see
/// the lists.
#[derive(Drop)]
pub struct Chains {
    /// Of each list its first link: one more than the link's place, or 0 where nothing is listed.
    firsts: Sequence<usize>,
    /// Numbers, each with the link behind it.
    links: Sequence<(usize, usize)>,
}

impl Model for Chains {
    ghost use Rattle.std.specs.Prelude.{List, ℕ};
    ghost use Rattle.pat_grid_points.specs.Chains.{chains, AreChains};

    ghost Value = { List (List ℕ) };

    ghost view = { λ s. chains s.links s.firsts };

    ghost invariant = { λ s. AreChains s.links s.firsts };
}

impl Chains {
    /// So many empty lists, with room for two numbers each.
    pub fn empty(alloc: Global, count: usize) -> Result<Chains, AllocError>
        ensures { IfOk result (λ lists. lists ≡ replicate count []) }
    {
        let firsts = vec![in alloc; 0; count]?;
        let links = Vec::with_capacity(alloc, count.saturating_mul(2))?;
        let lists = of_links(count, Sequence::from_vec(firsts), Sequence::from_vec(links));
        Ok(lists)
    }

    /// Notes the number in the list at the place, if there is one.
    pub fn note(&mut self, place: usize, number: usize) -> Result<(), AllocError>
        ensures { OnOk result (self.new ≡ noted self.old place number) }
    {
        if place < self.firsts.len() {
            put_first(&mut self.firsts, &mut self.links, place, number)?;
        }
        Ok(())
    }

    /// Lists those of the list at the place that are no lower than `from`, in place of what was listed.
    pub fn list_from(
        &self,
        place: usize,
        from: usize,
        numbers: &mut Sequence<usize>,
    ) -> Result<(), AllocError>
        ensures { OnOk result (numbers.new ≡ from_on from (get_or self.now place [])) }
    {
        forget(numbers);
        let firsts = self.firsts.as_slice();
        if place < firsts.len() {
            walk(self.links.as_slice(), firsts[place], from, numbers)
        } else {
            Ok(())
        }
    }
}

/// So many lists without a link.
fn of_links(count: usize, firsts: Sequence<usize>, links: Sequence<(usize, usize)>) -> Chains
    requires firsts { firsts ≡ replicate count 0 }
    requires links { links ≡ [] }
    ensures { result ≡ replicate count [] }
{
    Chains { firsts, links }
}

/// Puts a link in front of the list at the place.
fn put_first(
    firsts: &mut Sequence<usize>,
    links: &mut Sequence<(usize, usize)>,
    place: usize,
    number: usize,
) -> Result<(), AllocError>
    requires { place < length firsts.old }
    ensures links { OnOk result (links.new ≡ links.old ++ (number, get_or firsts.old place 0) ∷ []) }
    ensures firsts { OnOk result (firsts.new ≡ set firsts.old place (length links.old + 1)) }
    ensures err { OnErr result ((links.new ≡ links.old) × (firsts.new ≡ firsts.old)) }
{
    let next = firsts.as_slice()[place];
    links.push((number, next))?;
    firsts.items[place] = links.len();
    Ok(())
}

/// Appends the numbers from the link on that are no lower than `from`.
fn walk(
    links: &[(usize, usize)],
    first: usize,
    from: usize,
    numbers: &mut Sequence<usize>,
) -> Result<(), AllocError>
    requires first { first ≤ length links.now }
    requires down { (p : ℕ) → (get_or links.now p (0, 0)).1 ≤ p }
    ensures { OnOk result (numbers.new ≡ numbers.old ++ from_on from (chain first links.now first)) }
{
    let mut link = first;
    while link > 0 {
        let (number, next) = links[link - 1];
        push_if(number >= from, number, numbers)?;
        link = next;
    }
    Ok(())
}
