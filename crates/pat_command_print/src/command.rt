// The canonical text of an input that is the text of a program.
ghost use Rattle.std.specs.Prelude.{◌≡◌, ◌<◌, ℕ, List, IfOk, length};
ghost use Rattle.pat_parser_laws.specs.Counts.{tree_size};
ghost use Rattle.pat_tree.specs.Views.{tree_view};
ghost use Rattle.pat_input.specs.Inputs.{IsRead};
ghost use Rattle.pat_front.specs.Texts.{IsTreeText};
ghost use Rattle.pat_command_print.specs.Allowed.{AllowedPrint};
ghost use Rattle.pat_limits.specs.Limits.{most_number};

use pat_front::{Answer, Status, check_tree, refused, tree_of};
use pat_input::Input;
use pat_tree::Tree;
use std::alloc::{AllocError, Global};

/// What `print` answers on this input.
pub fn answer_print(alloc: Global, input: Input) -> Result<Answer, AllocError>
    requires { (bytes : List ℕ) × IsRead bytes input }
    ensures { (bytes : List ℕ) → IsRead bytes input → IfOk result (λ a. AllowedPrint bytes a.text.items a.status) }
{
    match tree_of(alloc, input) {
        Ok((tree, end)) => print_tree(alloc, &tree, end),
        Err(error) => refused(alloc, error),
    }
}

// The canonical text of a tree that has a program.
fn print_tree(alloc: Global, tree: &Tree, end: u32) -> Result<Answer, AllocError>
    requires text { (bytes : List ℕ) × IsTreeText bytes (tree_view tree.now) × (end ≡ length bytes) }
    requires small { tree_size (tree_view tree.now) < most_number }
    ensures { (bytes : List ℕ) → IsTreeText bytes (tree_view tree.now) → end ≡ length bytes → IfOk result (λ a. AllowedPrint bytes a.text.items a.status) }
{
    match check_tree(alloc, tree, end) {
        Ok(()) => Ok(Answer {
            text: pat_print::print(alloc, tree)?,
            status: Status::Ok,
        }),
        Err(error) => refused(alloc, error),
    }
}
