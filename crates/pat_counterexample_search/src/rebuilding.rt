// Trees rebuilt from a table that is done.
ghost use Rattle.std.specs.Prelude.{◌≡◌, IfOk};
ghost use Rattle.pat_bags.specs.Views.{word_of};
ghost use Rattle.pat_inclusion_spec.specs.bounds.Trees.{LeftTree, RightTree, BothTree, StarMoreTree, LowerTree};
ghost use Rattle.pat_witnesses.specs.Views.{bound_view};
ghost use Rattle.pat_grid.specs.tables.Views.{setting_of};
ghost use Rattle.pat_counterexample_search.specs.Choices.{entry_of, IsReady, HasRoom, Rebuilt};

use crate::choice::{Choice, Place};
use crate::choosing::choose;
use pat_bags::Bag;
use pat_grid::Board;
use pat_grid_points::SparseList;
use pat_witnesses::Bound;
use std::alloc::{AllocError, Global};

/// A tree of the size that the table has at the place, which is within the limit. The tree's word is added to `word`.
pub fn rebuild(
    alloc: Global,
    board: &Board,
    entries: &SparseList<u16>,
    place: Place,
    word: &mut Bag,
) -> Result<Bound, AllocError>
    requires ready { IsReady board.now entries.now }
    requires place { HasRoom board.now entries.now place (word_of word.old) }
    ensures { IfOk result (λ tree. Rebuilt (setting_of board.now) place (entry_of (setting_of board.now) entries.now place)
        (word_of word.old) (bound_view tree) (word_of word.new)) }
{
    match choose(board, entries, place) {
        Choice::Empty => Ok(Bound::Empty),
        Choice::StarEnd => Ok(Bound::StarEnd),
        Choice::Tag(tag) => {
            *word = word.add(&Bag::one(tag));
            Ok(Bound::Tag)
        }
        Choice::Left(part) => {
            let tree = rebuild(alloc, board, entries, part, word)?;
            join_left(alloc, tree)
        }
        Choice::Right(part) => {
            let tree = rebuild(alloc, board, entries, part, word)?;
            join_right(alloc, tree)
        }
        Choice::Lower(part) => {
            let tree = rebuild(alloc, board, entries, part, word)?;
            join_lower(alloc, tree)
        }
        Choice::Both(one, other) => {
            let first = rebuild(alloc, board, entries, one, word)?;
            let second = rebuild(alloc, board, entries, other, word)?;
            join_both(alloc, first, second)
        }
        Choice::StarMore(one, other) => {
            let first = rebuild(alloc, board, entries, one, word)?;
            let rest = rebuild(alloc, board, entries, other, word)?;
            join_star(alloc, first, rest)
        }
    }
}

#[inline(never)]
fn join_left(alloc: Global, part: Bound) -> Result<Bound, AllocError>
    ensures { IfOk result (λ tree. bound_view tree ≡ LeftTree (bound_view part)) }
{
    Ok(Bound::Left(Box::new(alloc, part)?))
}

#[inline(never)]
fn join_right(alloc: Global, part: Bound) -> Result<Bound, AllocError>
    ensures { IfOk result (λ tree. bound_view tree ≡ RightTree (bound_view part)) }
{
    Ok(Bound::Right(Box::new(alloc, part)?))
}

#[inline(never)]
fn join_lower(alloc: Global, part: Bound) -> Result<Bound, AllocError>
    ensures { IfOk result (λ tree. bound_view tree ≡ LowerTree (bound_view part)) }
{
    Ok(Bound::Lower(Box::new(alloc, part)?))
}

#[inline(never)]
fn join_both(alloc: Global, first: Bound, second: Bound) -> Result<Bound, AllocError>
    ensures { IfOk result (λ tree. bound_view tree ≡ BothTree (bound_view first) (bound_view second)) }
{
    Ok(Bound::Both(Box::new(alloc, first)?, Box::new(alloc, second)?))
}

#[inline(never)]
fn join_star(alloc: Global, first: Bound, rest: Bound) -> Result<Bound, AllocError>
    ensures { IfOk result (λ tree. bound_view tree ≡ StarMoreTree (bound_view first) (bound_view rest)) }
{
    Ok(Bound::StarMore(Box::new(alloc, first)?, Box::new(alloc, rest)?))
}
