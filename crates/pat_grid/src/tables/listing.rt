// Lists of the numbers that are looked at.
ghost use Rattle.std.specs.Prelude.{◌≡◌, ◌<◌, ◌≤◌, OnOk};
ghost use Rattle.pat_inclusion_spec.specs.bounds.Tables.{IsKnown};
ghost use Rattle.pat_inclusion_spec.specs.bounds.Numbers.{HasAllEntries};
ghost use Rattle.pat_grid.specs.tables.Views.{setting_of, IsBoard};
ghost use Rattle.pat_grid.specs.tables.Moves.{entry_at, HasLists, Lists};

use crate::tables::board::Board;
use crate::tables::sizes::Sizes;
use pat_sequences::Sequence;
use std::alloc::AllocError;

/// Lists the numbers from `from` on at which the symbol has a tree, in place of what was listed.
pub fn known(
    board: &Board,
    sizes: &Sizes,
    s: usize,
    from: usize,
    numbers: &mut Sequence<usize>,
) -> Result<(), AllocError>
    requires board { IsBoard board.now }
    requires all { HasAllEntries (setting_of board.now) sizes.now.entries }
    requires lists { HasLists (setting_of board.now) sizes.now }
    ensures { let g = setting_of board.now in OnOk result
        (Lists (λ c. IsKnown g.limit (entry_at g sizes.now.entries s c)) from board.now.points numbers.new) }
{
    sizes.reached.list_from(s, from, numbers)
}
