// The bound parts of lets, by their bodies.
ghost use Rattle.std.specs.Prelude.{◌≡◌, ℕ, IfOk};
ghost use Rattle.pat_semantics_spec.specs.WellFormed.{WellFormed};
ghost use Rattle.pat_type_system_spec.specs.Holdings.{bound_of as bound_of_let};
ghost use Rattle.pat_core.specs.Views.{core_view, program_view};
ghost use Rattle.pat_checkpoint_balances.specs.Tables.{bound_in, Notes};

use pat_core::{Core, Program};
use pat_sequences::Sequence;
use std::alloc::{AllocError, Global};

/// For each node the bound part of the let whose body it is, if there is one.
pub fn bounds_of(alloc: Global, program: &Program) -> Result<Sequence<Option<u32>>, AllocError>
    requires { WellFormed (program_view program.now) }
    ensures { IfOk result (λ bounds. (body : ℕ) → bound_in bounds body ≡ bound_of_let (program_view program.now).nodes body) }
{
    let nodes = program.nodes.as_slice();
    let mut bounds = Sequence::new(alloc);
    for _ in nodes {
        bounds.push(None)?;
    }
    for n in (0..nodes.len()).rev() {
        note_let(&mut bounds, &nodes[n].core);
    }
    Ok(bounds)
}

// Notes the bound part at the body, where the term is a let whose body is there.
fn note_let(bounds: &mut Sequence<Option<u32>>, core: &Core)
    ensures { Notes (core_view core.now) bounds.old bounds.new }
{
    if let Core::Let { bound, body, .. } = core {
        let place = *body as usize;
        if place < bounds.len() {
            let _ = bounds.replace(place, Some(*bound));
        }
    }
}

/// The bound part of the let whose body this is, if there is one.
pub fn bound_of(bounds: &[Option<u32>], body: u32) -> Option<u32>
    ensures { result ≡ bound_in bounds.now body }
{
    match bounds.get(body as usize) {
        None => None,
        Some(bound) => *bound,
    }
}
