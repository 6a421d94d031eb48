//! Trees and patterns to their canonical text.
#![tactic(auto)]

ghost use Rattle.std.specs.Prelude.{◌≡◌, IfOk};
ghost use Rattle.pat_parser_spec.specs.Items.{Limits};
ghost use Rattle.pat_print_spec.specs.Text.{canonical_text};
ghost use Rattle.pat_print_laws.specs.ReadAgain.{CanBeSpelled, ReadsAs};
ghost use Rattle.pat_tree.specs.Views.{tree_view};

mod atoms;
mod declaration;
mod expression;
mod list;
mod pattern;
mod patterns;
mod term;

use declaration::put_declaration;
use pat_tree::Tree;
pub use patterns::{pattern_text, pattern_text_law, push_pattern};
use std::alloc::{AllocError, Global};

/// The canonical text of a tree: a declaration a line. Where the tree is, places aside, one that tokens spell within some
/// limits, the text printed is read as that tree, places aside, within the same limits.
pub fn print(alloc: Global, tree: &Tree) -> Result<Vec<u8>, AllocError>
    ensures canonical { IfOk result (λ text. text.items ≡ canonical_text (tree_view tree.now)) }
    ensures read_again { (lim : Limits) → CanBeSpelled lim (tree_view tree.now)
        → IfOk result (λ text. ReadsAs lim text.items (tree_view tree.now)) }
{
    tree_lines(alloc, tree)
}

/// The declarations, each with the end of its line.
fn tree_lines(alloc: Global, tree: &Tree) -> Result<Vec<u8>, AllocError>
    ensures { IfOk result (λ text. text.items ≡ canonical_text (tree_view tree.now)) }
{
    let mut out = Vec::new(alloc);
    for declaration in tree.decls.as_slice() {
        put_declaration(alloc, &mut out, declaration)?;
        out.push(b'\n')?;
    }
    Ok(out)
}
