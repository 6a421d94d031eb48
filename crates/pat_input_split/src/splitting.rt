// Where the second part of an input begins.
ghost use Rattle.std.specs.Prelude.{◌≤◌, take, drop, length, IfSome, IfNone};
ghost use Rattle.pat_input_split.specs.Marked.{IsMarked, IsUnmarked};

use pat_texts::cut;

/// The offset at which the first line begins that is exactly the mark, if there is one: the part before it is the program, and the
/// text begins with that line. The last line may have no end.
pub fn place_of_mark(bytes: &[u8], mark: &[u8]) -> Option<usize>
    ensures within { IfSome result (λ at. at ≤ length bytes.now) }
    ensures marked { IfSome result (λ at. IsMarked mark.now bytes.now (take at bytes.now) (drop at bytes.now)) }
    ensures unmarked { IfNone result (IsUnmarked mark.now bytes.now) }
{
    let mut rest = bytes;
    while let Some((line, more)) = cut(rest, b'\n') {
        if line == mark {
            return Some(bytes.len() - rest.len());
        }
        rest = more;
    }
    if rest == mark {
        Some(bytes.len() - rest.len())
    } else {
        None
    }
}
