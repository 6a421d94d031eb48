// Whether the clauses of a guard cover its pattern.
ghost use Rattle.std.specs.Prelude.{◌≡◌, ℕ};
ghost use Rattle.pat_semantics_spec.specs.Programs.{Function};
ghost use Rattle.pat_derivation_spec.specs.Derivations.{Line};
ghost use Rattle.pat_derivation_spec.specs.Truth.{place};
ghost use Rattle.pat_derivation_spec.specs.Rules.{guard_covers as guard_covers_of};
ghost use Rattle.pat_core.specs.Views.{node_view};

use pat_core::{Core, Node};
use pat_types::is_covered;

/// Whether the clauses of a guard cover its pattern.
pub fn guard_covers(node: &Node) -> bool
    ensures { (n : ℕ) (g : Function) (l : Line) → result ≡ guard_covers_of (place n (node_view node.now) g l) }
{
    match &node.core {
        Core::Guard {
            var: _,
            pattern,
            free,
            receives,
        } => is_covered(pattern, receives.as_slice(), free.is_some()),
        Core::Value(_)
        | Core::Let { .. }
        | Core::Call { .. }
        | Core::If { .. }
        | Core::Print(_)
        | Core::New(_)
        | Core::Send { .. }
        | Core::Spawn(_) => true,
    }
}
