// Lets whose parts share no variable. What such a let needs of a variable is written as what there is of it.
ghost use Rattle.std.specs.Prelude.{◌≡◌, IsTrue};
ghost use Rattle.pat_semantics_spec.specs.Programs.{Program};
ghost use Rattle.pat_core.specs.Views.{node_view, function_view};
ghost use Rattle.pat_types.specs.Views.{needs_view};
ghost use Rattle.pat_derivation_spec.specs.Derivations.{Line, line_at};
ghost use Rattle.pat_derivation_spec.specs.Truth.{place};
ghost use Rattle.pat_derivations.specs.Views.{derivation_view};
ghost use Rattle.pat_solve_derivation.specs.certificates.Apart.{needs_of, AreApart, NeedsNone};

use pat_core::{Core, Function, Node};
use pat_derivations::{Derivation, find};
use pat_obligations::line_of;
use pat_types::MailboxType;

/// Names of so many variables are looked for one by one.
const FEW: usize = 4;

/// Whether the node is a let, other than the first node of its function, whose parts share no variable: it needs no certificates.
/// Where the bound part names more than a few variables it isn't found.
#[tactic(auto, using(crate::proofs::Apart::let_needs_none))]
pub fn is_let_apart(
    derivation: &Derivation,
    number: usize,
    node: &Node,
    function: &Function,
) -> bool
    ensures { IsTrue result → (p : Program) (l : Line) → NeedsNone p (derivation_view derivation.now)
        (place number (node_view node.now) (function_view function.now) l) }
{
    match &node.core {
        Core::Let {
            var: _,
            bound,
            body,
        } => {
            function.body as usize != number
                && are_apart(env_of(derivation, *bound), env_of(derivation, *body))
        }
        _ => false,
    }
}

/// The variables that a part names, none where it has no line.
fn env_of(derivation: &Derivation, part: u32) -> &[(u32, MailboxType)]
    ensures { needs_view result.now ≡ needs_of (line_at (derivation_view derivation.now) part) }
{
    match line_of(derivation, part) {
        None => &[],
        Some(line) => line.of.env.as_slice(),
    }
}

/// Whether the bound part names few variables, and the body none of them.
#[tactic(auto, using(crate::proofs::Apart::nothing_apart, crate::proofs::Apart::one_more_apart))]
fn are_apart(bound: &[(u32, MailboxType)], body: &[(u32, MailboxType)]) -> bool
    ensures { IsTrue result → AreApart (needs_view bound.now) (needs_view body.now) }
{
    if bound.len() > FEW {
        return false;
    }
    for (name, _) in bound {
        if find(body, *name).is_some() {
            return false;
        }
    }
    true
}
