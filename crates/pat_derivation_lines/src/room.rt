// Room for lists of which the text says how long they are.
ghost use Rattle.std.specs.Prelude.{◌≡◌, [], IfOk};

use pat_sequences::Sequence;
use std::alloc::{AllocError, Global};

// For how many items there is room at first, at most; so a text of nothing but commas takes no more than others.
const MOST_AT_FIRST: usize = 64;

/// An empty sequence with room for as many items as the text has between these bytes. Most lists are short and stay, so they take no more
/// than they need.
pub fn room_for<T>(alloc: Global, text: &[u8], between: u8) -> Result<Sequence<T>, AllocError>
    ensures { IfOk result (λ items. items ≡ []) }
{
    let mut count = 1;
    for byte in text {
        if *byte == between && count < MOST_AT_FIRST {
            count += 1;
        }
    }
    let items = Vec::with_capacity(alloc, count)?;
    Ok(Sequence::from_vec(items))
}
