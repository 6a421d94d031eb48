// Lines of derivations, without certificates and with them.
ghost use Rattle.std.specs.Prelude.{◌≡◌, ◌<◌, ◌≤◌, length, map, Some, slice_get, slice_set, IfOk};
ghost use Rattle.pat_derivation_spec.specs.Derivations.{Line as GhostLine};
ghost use Rattle.pat_types.specs.Views.{node_type_view};
ghost use Rattle.pat_derivations.specs.Views.{certs_view, lines_view};
ghost use Rattle.pat_solve_derivation.specs.Lines.{bare_lines as bare_lines_of, with_certs, line_with};

use pat_derivations::{Cert, DerivedNode};
use pat_sequences::{Sequence, let_go};
use pat_types::NodeType;
use std::alloc::{AllocError, Global};
use std::mem;

/// Lines of these types, without certificates.
pub fn bare_lines(
    alloc: Global,
    types: Sequence<NodeType>,
) -> Result<Sequence<DerivedNode>, AllocError>
    ensures { IfOk result (λ lines. lines_view lines ≡ bare_lines_of (map node_type_view types)) }
{
    let mut lines = Sequence::new(alloc);
    for of in types.items {
        lines.push(DerivedNode {
            of,
            certs: Sequence::new(alloc),
        })?;
    }
    Ok(lines)
}

/// Puts certificates in the place of those of the line at this place.
fn put_at(lines: &mut [DerivedNode], place: usize, certs: Sequence<Cert>)
    requires { place < length lines.old }
    ensures { (l : GhostLine) → slice_get (lines_view lines.old) place ≡ Some l
        → lines_view lines.new ≡ slice_set (lines_view lines.old) place (line_with l (certs_view certs)) }
{
    let_go(mem::replace(&mut lines[place].certs, certs));
}

/// Puts certificates in the place of those of all lines, in order.
pub fn put_certs(lines: &mut [DerivedNode], certs: Sequence<Sequence<Cert>>)
    requires { length certs ≤ length lines.old }
    ensures { lines_view lines.new ≡ with_certs (lines_view lines.old) (map certs_view certs) }
{
    let mut left = certs;
    while let Some(own) = left.pop() {
        put_at(lines, left.len(), own);
    }
}
