// Lists most of whose items are the same.
ghost use Rattle.std.specs.Prelude.{◌≡◌, ◌<◌, ◌≤◌, ◌+◌, ◌*◌, ◌/◌, ◌%◌, true, ℕ, length, get_or, set, replicate, IfOk, OnOk, OnErr, IfSome, IfNone};
ghost use Rattle.pat_grid_points.specs.Sparse.{sparse, AreBlocks, IsFilled};

use crate::blocks::{BLOCK, BlockList, ROOM, copies, repeat_first, run_of};
use pat_sequences::Sequence;
use std::alloc::{AllocError, Global};
use std::marker::Model;

// `BlockList` is this over a plain list of starts. Starts are read at each look at an item, so each of the two calls its own kind of them,
// and no trait stands between; what holds of both is in `InBlocks`.
/// A list most of whose items are the same: memory and time go to the blocks that have others, and to one number for each block of
/// blocks. Contracts see the list.
#[derive(Drop)]
pub struct SparseList<T> {
    count: usize,
    common: T,
    /// Of each block of the list the number of the one that has its items.
    starts: BlockList<usize>,
    /// Blocks one after another. The first has the common item alone, and stands for each block that has nothing else.
    blocks: Sequence<T>,
}

impl<T> Model for SparseList<T> {
    ghost use Rattle.std.specs.Prelude.{List};
    ghost use Rattle.pat_grid_points.specs.Sparse.{sparse, AreBlocks};

    ghost Value = { List T };

    ghost view = { λ s. sparse s.count s.common s.starts s.blocks };

    ghost invariant = { λ s. AreBlocks s.count s.common s.starts s.blocks };
}

impl<T: Copy + Drop + PartialEq> SparseList<T> {
    /// The list that has so many times the item.
    pub fn repeat(alloc: Global, common: T, count: usize) -> Result<SparseList<T>, AllocError>
        ensures { IfOk result (λ list. list ≡ replicate count common) }
    {
        let starts = BlockList::repeat(alloc, 0, count / BLOCK + 1)?;
        let blocks = copies(alloc, common, 2 * ROOM)?;
        let list = of_blocks(count, common, starts, blocks);
        Ok(list)
    }

    /// The number of items.
    pub fn len(&self) -> usize
        ensures { result ≡ length self.now }
    {
        self.count
    }

    /// The item at the place.
    pub fn get(&self, place: usize) -> T
        requires { place < length self.now }
        ensures { (d : T) → get_or self.now place d ≡ result }
    {
        let start = self.starts.get(place / BLOCK);
        self.blocks.as_slice()[start * BLOCK + place % BLOCK]
    }

    /// Puts an item at the place. An error leaves the list as it was.
    pub fn set(&mut self, place: usize, item: T) -> Result<(), AllocError>
        requires { place < length self.old }
        ensures ok { OnOk result (self.new ≡ set self.old place item) }
        ensures err { OnErr result (self.new ≡ self.old) }
    {
        let block = place / BLOCK;
        let start = begin(&mut self.starts, &mut self.blocks, block)?;
        self.blocks.items[start * BLOCK + place % BLOCK] = item;
        Ok(())
    }

    /// Puts an item at so many places from this one on, block by block. An error may have put some.
    pub fn fill(&mut self, from: usize, count: usize, item: T) -> Result<(), AllocError>
        requires { from + count ≤ length self.old }
        ensures { OnOk result (IsFilled from count item self.old self.new) }
    {
        // All places are below it, so nothing wraps.
        let _items = self.len();
        let mut done = 0;
        while done < count {
            let place = from + done;
            let some = (BLOCK - place % BLOCK).min(count - done);
            self.fill_within(place, some, item)?;
            done += some;
        }
        Ok(())
    }

    /// So within one block.
    fn fill_within(&mut self, place: usize, count: usize, item: T) -> Result<(), AllocError>
        requires there { place + count ≤ length self.old }
        requires block { place % 16 + count ≤ 16 }
        ensures { OnOk result (IsFilled place count item self.old self.new) }
    {
        let block = place / BLOCK;
        let start = begin(&mut self.starts, &mut self.blocks, block)?;
        put_run(&mut self.blocks, start, place % BLOCK, count, item);
        Ok(())
    }

    /// A place past this one; up to it all items are the same as here.
    pub fn same_until(&self, place: usize) -> usize
        requires exact { (x y : T) → T.eq x y ≡ true → x ≡ y }
        requires there { place < length self.now }
        ensures past { place < result }
        ensures within { result ≤ length self.now }
        ensures same { (i : ℕ) (d : T) → place ≤ i → i < result → get_or self.now i d ≡ get_or self.now place d }
    {
        let block = place / BLOCK;
        let start = self.starts.get(block);
        if start != 0 {
            let run = run_of(self.blocks.as_slice(), start * BLOCK + place % BLOCK);
            return place + run.min(self.count - place);
        }
        match next_begun(&self.starts, block) {
            Some(next) => next * BLOCK,
            None => self.count,
        }
    }
}

/// The list without a block that has items of its own.
fn of_blocks<T: Copy + Drop>(
    count: usize,
    common: T,
    starts: BlockList<usize>,
    blocks: Sequence<T>,
) -> SparseList<T>
    requires starts { starts ≡ replicate (count / 16 + 1) 0 }
    requires blocks { blocks ≡ replicate 16 common }
    ensures { result ≡ replicate count common }
{
    SparseList {
        count,
        common,
        starts,
        blocks,
    }
}

/// Puts an item at so many places of a block, from one on.
fn put_run<T: Copy + Drop>(
    blocks: &mut Sequence<T>,
    start: usize,
    first: usize,
    count: usize,
    item: T,
)
    requires { (start * 16 + first) + count ≤ length blocks.old }
    ensures { IsFilled (start * 16 + first) count item blocks.old blocks.new }
{
    // All places are below it, so nothing wraps.
    let _items = blocks.len();
    let from = start * BLOCK + first;
    for place in from..from + count {
        put(blocks, place, item);
    }
}

/// Puts an item at the place.
fn put<T: Copy + Drop>(items: &mut Sequence<T>, place: usize, item: T)
    requires { place < length items.old }
    ensures { items.new ≡ set items.old place item }
{
    items.items[place] = item;
}

/// Where the block's own items start. It is given some, if it has none: they are the common ones first.
fn begin<T: Copy + Drop>(
    starts: &mut BlockList<usize>,
    blocks: &mut Sequence<T>,
    block: usize,
) -> Result<usize, AllocError>
    requires there { block < length starts.old }
    requires first { 16 ≤ length blocks.old }
    ensures ok { (count : ℕ) (common : T) → AreBlocks count common starts.old blocks.old
        → IfOk result (λ start. AreBlocks count common starts.new blocks.new
        × (sparse count common starts.new blocks.new ≡ sparse count common starts.old blocks.old)
        × (get_or starts.new block 0 ≡ start) × (start ≡ 0 → ⊥)) }
    ensures err { OnErr result ((starts.new ≡ starts.old) × (blocks.new ≡ blocks.old)) }
{
    let own = starts.get(block);
    if own != 0 {
        return Ok(own);
    }
    let count = blocks.len();
    let start = count / BLOCK;
    repeat_first(blocks)?;
    match starts.set(block, start) {
        Ok(()) => Ok(start),
        Err(error) => {
            blocks.items.truncate(count);
            Err(error)
        }
    }
}

/// The first block past this one that has items of its own.
fn next_begun(starts: &BlockList<usize>, block: usize) -> Option<usize>
    requires { block < length starts.now }
    ensures some { IfSome result (λ next. (block < next) × (next < length starts.now)
        × ((a : ℕ) → block < a → a < next → get_or starts.now a 0 ≡ 0)) }
    ensures none { IfNone result ((a : ℕ) → block < a → get_or starts.now a 0 ≡ 0) }
{
    let count = starts.len();
    let mut next = block + 1;
    while next < count {
        if starts.get(next) != 0 {
            return Some(next);
        }
        next = starts.same_until(next);
    }
    None
}
