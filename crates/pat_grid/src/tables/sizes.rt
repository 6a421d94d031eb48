// Sizes of least trees, and where they are known.
ghost use Rattle.std.specs.Prelude.{◌≡◌, OnOk, if◌then◌else◌};
ghost use Rattle.pat_grid_points.specs.Chains.{noted};

use pat_grid_points::{Chains, SparseList};
use pat_sequences::Sequence;
use std::alloc::{AllocError, Global};

/// The sizes of least trees as far as they are known. Mostly a symbol has trees at a handful of points, so these are also
/// listed.
#[derive(Drop)]
pub struct Sizes {
    /// For each symbol an entry for each point.
    pub entries: SparseList<u16>,
    /// Of each symbol the numbers of the points at which it has a tree, the last one that was reached in front.
    pub reached: Chains,
    /// The numbers at which an entry was lowered since the look at a symbol began.
    pub news: Sequence<usize>,
}

/// Lists of numbers that each look fills anew, so that memory is taken for them once.
#[derive(Drop)]
pub struct Scratch {
    pub alloc: Global,
    pub firsts: Sequence<usize>,
    pub seconds: Sequence<usize>,
}

/// Notes that the symbol has a tree at the number, if it is asked for.
pub fn note_if(
    wanted: bool,
    reached: &mut Chains,
    s: usize,
    number: usize,
) -> Result<(), AllocError>
    ensures { OnOk result (reached.new ≡ (if wanted then noted reached.old s number else reached.old)) }
{
    if wanted {
        reached.note(s, number)?;
    }
    Ok(())
}
