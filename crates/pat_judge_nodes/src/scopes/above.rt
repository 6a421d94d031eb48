// For each node the node that it is a part of.
ghost use Rattle.std.specs.Prelude.{◌≡◌, length, map, IfOk};
ghost use Rattle.pat_semantics_spec.specs.Programs.{parts, option_list, clause_bodies};
ghost use Rattle.pat_core.specs.Views.{core_view, clause_view, node_view, program_view};
ghost use Rattle.std.specs.Prelude.{Some, slice_set};
ghost use Rattle.pat_judge_nodes.specs.scopes.Upwards.{AreAbove, marked, marked_from};

use pat_core::{Clause, Core, Node, Program};
use pat_sequences::Sequence;
use std::alloc::{AllocError, Global};

/// For each node the number of the node that it is a part of, if there is one.

pub fn nodes_above(alloc: Global, program: &Program) -> Result<Sequence<Option<usize>>, AllocError>
    ensures { IfOk result (λ above. AreAbove (program_view program.now) above) }
{
    marked_by(alloc, program.nodes.as_slice())
}

fn marked_by(alloc: Global, nodes: &[Node]) -> Result<Sequence<Option<usize>>, AllocError>
    ensures { IfOk result (λ above. above ≡ marked_from (length nodes.now) 0 (map node_view nodes.now)) }
{
    let mut above = Sequence::from_vec(vec![in alloc; None; nodes.len()]?);
    let mut place = nodes.len();
    while place > 0 {
        place -= 1;
        mark_parts(&mut above, &nodes[place].core, place);
    }
    Ok(above)
}

/// Notes the node for each part of its term.
#[tactic(auto, using(crate::proofs::Tables::marked_both))]
fn mark_parts(above: &mut Sequence<Option<usize>>, core: &Core, node: usize)
    ensures { above.new ≡ marked (parts (core_view core.now)) node above.old }
{
    match core {
        Core::Let {
            var: _,
            bound,
            body,
        } => {
            mark(above, *bound, node);
            mark(above, *body, node);
        }
        Core::If { test: _, yes, no } => {
            mark(above, *yes, node);
            mark(above, *no, node);
        }
        Core::Spawn(body) => mark(above, *body, node),
        Core::Guard {
            var: _,
            pattern: _,
            free,
            receives,
        } => {
            mark_free(above, *free, node);
            mark_clauses(above, receives.as_slice(), node);
        }
        _ => {}
    }
}

#[tactic(auto, using(crate::proofs::Tables::past_all))]
fn mark(above: &mut Sequence<Option<usize>>, part: u32, node: usize)
    ensures { above.new ≡ slice_set above.old part (Some node) }
{
    let place = part as usize;
    if place < above.len() {
        above.replace(place, Some(node));
    }
}

fn mark_free(above: &mut Sequence<Option<usize>>, free: Option<u32>, node: usize)
    ensures { above.new ≡ marked (option_list free) node above.old }
{
    match free {
        None => {}
        Some(part) => mark(above, part, node),
    }
}

fn mark_clauses(above: &mut Sequence<Option<usize>>, clauses: &[Clause], node: usize)
    ensures { above.new ≡ marked (clause_bodies (map clause_view clauses.now)) node above.old }
{
    for clause in clauses {
        mark(above, clause.body, node);
    }
}
