// Rows, each of which grows at its end.
ghost use Rattle.std.specs.Prelude.{◌≡◌, [], replicate, IfOk, OnOk};
ghost use Rattle.pat_solve_bounds.specs.lower_bounds.Rows.{put_at};

use pat_sequences::Sequence;
use std::alloc::{AllocError, Global};

/// So many empty rows.
pub fn no_rows<T: Drop>(alloc: Global, count: usize) -> Result<Sequence<Sequence<T>>, AllocError>
    ensures { IfOk result (λ rows. rows ≡ replicate count []) }
{
    let mut rows = Sequence::new(alloc);
    for _ in 0..count {
        rows.push(Sequence::new(alloc))?;
    }
    Ok(rows)
}

/// Puts an item at the end of a row, if there is such a row.
pub fn put<T: Drop>(rows: &mut Sequence<Sequence<T>>, row: usize, item: T) -> Result<(), AllocError>
    ensures { OnOk result (rows.new ≡ put_at rows.old row item) }
{
    if row < rows.len() {
        rows.items[row].push(item)?;
    }
    Ok(())
}
