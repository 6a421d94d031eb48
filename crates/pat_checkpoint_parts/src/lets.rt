// The `let` of each body.
ghost use Rattle.std.specs.Prelude.{◌≡◌, ◌<◌, ℕ, length, IfOk};
ghost use Rattle.pat_semantics_spec.specs.WellFormed.{WellFormed};
ghost use Rattle.pat_core.specs.Views.{core_view, program_view};
ghost use Rattle.pat_checkpoint_spec.specs.Kinds.{let_of, or_later};
ghost use Rattle.pat_checkpoint_parts.specs.Tables.{AreLets, binding_at};

use pat_core::{Core, Program};
use pat_sequences::Sequence;
use std::alloc::{AllocError, Global};

/// What a `let` binds, and under which name.
#[derive(Clone, Copy, Debug, PartialEq, Eq)]
pub struct Binding {
    pub var: Option<u32>,
    pub bound: u32,
}

/// For each node the binding of the `let` whose body it is, if it is that of one.
pub fn lets_of(alloc: Global, program: &Program) -> Result<Sequence<Option<Binding>>, AllocError>
    requires { WellFormed (program_view program.now) }
    ensures { IfOk result (λ lets. AreLets (program_view program.now) lets) }
{
    let nodes = program.nodes.as_slice();
    let mut lets = Sequence::new(alloc);
    for _ in nodes {
        lets.push(None)?;
    }
    // The first `let` with a body counts, so it is put there last.
    for n in (0..nodes.len()).rev() {
        put_let(&mut lets, &nodes[n].core);
    }
    Ok(lets)
}

/// Puts the binding of a `let` at its body.
fn put_let(lets: &mut Sequence<Option<Binding>>, core: &Core)
    ensures len { length lets.new ≡ length lets.old }
    ensures put { (b : ℕ) → b < length lets.old → binding_at lets.new b ≡ or_later (let_of b (core_view core.now)) (binding_at lets.old b) }
{
    let Core::Let { var, bound, body } = core else {
        return;
    };
    let place = *body as usize;
    if place < lets.len() {
        lets.replace(
            place,
            Some(Binding {
                var: *var,
                bound: *bound,
            }),
        );
    }
}
