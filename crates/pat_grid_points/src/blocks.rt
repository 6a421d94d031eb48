// Lists in blocks.
ghost use Rattle.std.specs.Prelude.{◌≡◌, ◌<◌, ◌≤◌, ◌+◌, ◌*◌, ◌/◌, true, ◌++◌, ℕ, length, get_or, set, replicate, take, IfOk, OnOk, OnErr, IfSome, IfNone};
ghost use Rattle.pat_grid_points.specs.Sparse.{sparse, AreBlocks};

use pat_sequences::Sequence;
use std::alloc::{AllocError, Global};
use std::marker::Model;

/// The number of items of a block.
pub const BLOCK: usize = 16;

/// Room for a few blocks, so that most lists don't move while they grow.
pub const ROOM: usize = 8 * BLOCK;

/// A list most of whose items are the same: memory and time go to the blocks that have others. Contracts see the list.
#[derive(Drop)]
pub struct BlockList<T> {
    count: usize,
    common: T,
    /// Of each block of the list the number of the one that has its items.
    starts: Sequence<usize>,
    /// Blocks one after another. The first has the common item alone, and stands for each block that has nothing else.
    blocks: Sequence<T>,
}

impl<T> Model for BlockList<T> {
    ghost use Rattle.std.specs.Prelude.{List};
    ghost use Rattle.pat_grid_points.specs.Sparse.{sparse, AreBlocks};

    ghost Value = { List T };

    ghost view = { λ s. sparse s.count s.common s.starts s.blocks };

    ghost invariant = { λ s. AreBlocks s.count s.common s.starts s.blocks };
}

impl<T: Copy + Drop + PartialEq> BlockList<T> {
    /// The list that has so many times the item.
    pub fn repeat(alloc: Global, common: T, count: usize) -> Result<BlockList<T>, AllocError>
        ensures { IfOk result (λ list. list ≡ replicate count common) }
    {
        let starts = vec![in alloc; 0; count / BLOCK + 1]?;
        let blocks = copies(alloc, common, ROOM)?;
        let list = of_blocks(count, common, Sequence::from_vec(starts), blocks);
        Ok(list)
    }

    /// The number of items.
    pub fn len(&self) -> usize
        ensures { result ≡ length self.now }
    {
        self.count
    }

    /// The item at the place.
    pub fn get(&self, place: usize) -> T
        requires { place < length self.now }
        ensures { (d : T) → get_or self.now place d ≡ result }
    {
        let start = self.starts.as_slice()[place / BLOCK];
        self.blocks.as_slice()[start * BLOCK + place % BLOCK]
    }

    /// Puts an item at the place. An error leaves the list as it was.
    pub fn set(&mut self, place: usize, item: T) -> Result<(), AllocError>
        requires { place < length self.old }
        ensures ok { OnOk result (self.new ≡ set self.old place item) }
        ensures err { OnErr result (self.new ≡ self.old) }
    {
        let block = place / BLOCK;
        begin(&mut self.starts, &mut self.blocks, block)?;
        let start = self.starts.as_slice()[block];
        self.blocks.items[start * BLOCK + place % BLOCK] = item;
        Ok(())
    }

    /// A place past this one; up to it all items are the same as here.
    pub fn same_until(&self, place: usize) -> usize
        requires exact { (x y : T) → T.eq x y ≡ true → x ≡ y }
        requires there { place < length self.now }
        ensures past { place < result }
        ensures within { result ≤ length self.now }
        ensures same { (i : ℕ) (d : T) → place ≤ i → i < result → get_or self.now i d ≡ get_or self.now place d }
    {
        let block = place / BLOCK;
        let starts = self.starts.as_slice();
        let start = starts[block];
        if start != 0 {
            let run = run_of(self.blocks.as_slice(), start * BLOCK + place % BLOCK);
            return place + run.min(self.count - place);
        }
        match next_begun(starts, block) {
            Some(next) => next * BLOCK,
            None => self.count,
        }
    }
}

/// The list without a block that has items of its own.
fn of_blocks<T: Copy + Drop>(
    count: usize,
    common: T,
    starts: Sequence<usize>,
    blocks: Sequence<T>,
) -> BlockList<T>
    requires starts { starts ≡ replicate (count / 16 + 1) 0 }
    requires blocks { blocks ≡ replicate 16 common }
    ensures { result ≡ replicate count common }
{
    BlockList {
        count,
        common,
        starts,
        blocks,
    }
}

/// A block of the item alone, with room for so many items.
pub fn copies<T: Copy + Drop>(
    alloc: Global,
    item: T,
    room: usize,
) -> Result<Sequence<T>, AllocError>
    ensures { IfOk result (λ items. items ≡ replicate 16 item) }
{
    let mut items = Sequence::from_vec(Vec::with_capacity(alloc, room)?);
    for _ in 0..BLOCK {
        items.push(item)?;
    }
    Ok(items)
}

/// Gives the block items of its own, if it has none. They are the common ones first.
fn begin<T: Copy + Drop>(
    starts: &mut Sequence<usize>,
    blocks: &mut Sequence<T>,
    block: usize,
) -> Result<(), AllocError>
    requires there { block < length starts.old }
    requires first { 16 ≤ length blocks.old }
    ensures ok { (count : ℕ) (common : T) → AreBlocks count common starts.old blocks.old
        → OnOk result (AreBlocks count common starts.new blocks.new
        × (sparse count common starts.new blocks.new ≡ sparse count common starts.old blocks.old) × (get_or starts.new block 0 ≡ 0 → ⊥)) }
    ensures err { OnErr result ((starts.new ≡ starts.old) × (blocks.new ≡ blocks.old)) }
{
    if starts.as_slice()[block] != 0 {
        return Ok(());
    }
    let start = blocks.len() / BLOCK;
    repeat_first(blocks)?;
    starts.items[block] = start;
    Ok(())
}

/// Appends a copy of the first block.
pub fn repeat_first<T: Copy + Drop>(blocks: &mut Sequence<T>) -> Result<(), AllocError>
    requires { 16 ≤ length blocks.old }
    ensures ok { OnOk result (blocks.new ≡ blocks.old ++ take 16 blocks.old) }
    ensures err { OnErr result (blocks.new ≡ blocks.old) }
{
    blocks.items.extend_from_within(0..BLOCK)
}

/// How many items from the place on are the same, up to the end of the place's block.
pub fn run_of<T: Copy + PartialEq>(blocks: &[T], place: usize) -> usize
    requires exact { (x y : T) → T.eq x y ≡ true → x ≡ y }
    requires there { place / 16 * 16 + 16 ≤ length blocks.now }
    ensures some { 0 < result }
    ensures within { place + result ≤ place / 16 * 16 + 16 }
    ensures same { (i : ℕ) (d : T) → place ≤ i → i < place + result → get_or blocks.now i d ≡ get_or blocks.now place d }
{
    let end = place / BLOCK * BLOCK + BLOCK;
    for next in place + 1..end {
        if blocks[next] != blocks[place] {
            return next - place;
        }
    }
    end - place
}

/// The first block past this one that has items of its own.
fn next_begun(starts: &[usize], block: usize) -> Option<usize>
    requires { block < length starts.now }
    ensures some { IfSome result (λ next. (block < next) × (next < length starts.now)
        × ((a : ℕ) → block < a → a < next → get_or starts.now a 0 ≡ 0)) }
    ensures none { IfNone result ((a : ℕ) → block < a → get_or starts.now a 0 ≡ 0) }
{
    for next in block + 1..starts.len() {
        if starts[next] != 0 {
            return Some(next);
        }
    }
    None
}
