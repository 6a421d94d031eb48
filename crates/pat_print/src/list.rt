// Lists with commas between.
ghost use Rattle.std.specs.Prelude.{◌≡◌, ℕ, List, ◌++◌, map, OnOk};
ghost use Rattle.pat_print.specs.Parts.{separated};

use std::alloc::{AllocError, Global};

/// What may stand in a list.
pub trait Entry {
    /// Its text.
    ghost text: { Self → List ℕ };

    /// Appends its text.
    fn put(&self, alloc: Global, out: &mut Vec<u8>) -> Result<(), AllocError>
        ensures { OnOk result (out.new.items ≡ out.old.items ++ text self.now) };
}

/// Appends the texts of entries, with a comma and a space between.
pub fn put_list<E: Entry>(alloc: Global, out: &mut Vec<u8>, entries: &[E]) -> Result<(), AllocError>
    ensures { OnOk result (out.new.items ≡ out.old.items ++ separated (map E.text entries.now)) }
{
    let Some((first, others)) = entries.split_first() else {
        return Ok(());
    };
    first.put(alloc, out)?;
    for other in others {
        out.extend_from_slice(b", ")?;
        other.put(alloc, out)?;
    }
    Ok(())
}
