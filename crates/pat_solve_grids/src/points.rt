// Points of grids, listed.
ghost use Rattle.std.specs.Prelude.{IfOk};
ghost use Rattle.pat_solve_grids.specs.Points.{AreListed};

use pat_bags::Bag;
use pat_grid_certificates::Grid;
use pat_sequences::Sequence;
use std::alloc::{AllocError, Global};

/// The points of each grid, ascending.
pub fn list_points(alloc: Global, grids: &[Grid]) -> Result<Sequence<Sequence<Bag>>, AllocError>
    ensures { IfOk result (AreListed grids.now) }
{
    let mut lists = Sequence::new(alloc);
    for grid in grids {
        let points = grid.points(alloc)?;
        lists.push(points)?;
    }
    Ok(lists)
}
