// What a let, and what branches need, variable by variable.
ghost use Rattle.std.specs.Prelude.{◌≡◌, ◌+◌, ◌∷◌, ◌++◌, [], true, length, map, option_map, OnOk};
ghost use Rattle.pat_derivation_spec.specs.Derivations.{ascends_from};
ghost use Rattle.pat_infer_spec.specs.Needs.{put_option};
ghost use Rattle.pat_infer_spec.specs.Walk.{let_gathered};
ghost use Rattle.pat_types.specs.Views.{type_view, needs_view};
ghost use Rattle.pat_infer_environments.specs.Combining.{column_view};
ghost use Rattle.pat_infer_environments.specs.Gathering.{Gathers, need_here, outer_gathered};

use crate::branching::join_branches;
use crate::joining::join_parts;
use crate::looking::{column_of, find_next, first_place, first_places};
use crate::needs::{ascend, find, put};
use crate::variables::{names_of, names_of_parts};
use pat_core::Program;
use pat_infer_problems::Problem;
use pat_sequences::Sequence;
use pat_types::MailboxType;
use std::alloc::{AllocError, Global};

/// What the let at a node needs, from what its bound part needs and what its body needs beside the name. Mostly the bound part needs
/// one variable at most, which is put among those of the body.
pub fn gather_let(
    alloc: Global,
    program: &Program,
    node: u32,
    bound: &[(u32, MailboxType)],
    body: Sequence<(u32, MailboxType)>,
    problem: &mut Problem,
) -> Result<Sequence<(u32, MailboxType)>, AllocError>
    ensures { Gathers program.now problem.old problem.new result
        (let_gathered node (1 + length problem.old.vars) (needs_view bound.now) (needs_view body)) }
{
    if !ascend(body.as_slice()) {
        return gather_parts(alloc, program, node, bound, body.as_slice(), problem);
    }
    match bound {
        [] => Ok(body),
        [(variable, of)] => gather_one(alloc, program, node, *variable, of, body, problem),
        _ => gather_parts(alloc, program, node, bound, body.as_slice(), problem),
    }
}

/// What the let at a node needs, where its bound part needs one variable.
fn gather_one(
    alloc: Global,
    program: &Program,
    node: u32,
    variable: u32,
    of: &MailboxType,
    body: Sequence<(u32, MailboxType)>,
    problem: &mut Problem,
) -> Result<Sequence<(u32, MailboxType)>, AllocError>
    requires { ascends_from 0 (needs_view body) ≡ true }
    ensures { Gathers program.now problem.old problem.new result
        (let_gathered node (1 + length problem.old.vars) ((variable, type_view of.now) ∷ []) (needs_view body)) }
{
    let own = find(body.as_slice(), variable as usize);
    let need = join_parts(alloc, program, node, variable, Some(of), own, problem)?;
    let mut needs = body;
    put_need(&mut needs, variable, need)?;
    Ok(needs)
}

/// Puts a need among needs in ascending order, if there is one.
fn put_need(
    needs: &mut Sequence<(u32, MailboxType)>,
    variable: u32,
    need: Option<MailboxType>,
) -> Result<(), AllocError>
    ensures { OnOk result (needs_view needs.new ≡ put_option variable (option_map type_view need) (needs_view needs.old)) }
{
    match need {
        Some(of) => put(needs, variable, of),
        None => Ok(()),
    }
}

/// What the let at a node needs, name by name.
#[tactic(auto, using(crate::proofs::Gathered::one_more))]
fn gather_parts(
    alloc: Global,
    program: &Program,
    node: u32,
    bound: &[(u32, MailboxType)],
    body: &[(u32, MailboxType)],
    problem: &mut Problem,
) -> Result<Sequence<(u32, MailboxType)>, AllocError>
    ensures { Gathers program.now problem.old problem.new result
        (let_gathered node (1 + length problem.old.vars) (needs_view bound.now) (needs_view body.now)) }
{
    let names = names_of_parts(alloc, bound, body)?;
    let mut needs = Sequence::new(alloc);
    let mut in_bound = first_place();
    let mut in_body = first_place();
    for name in names.as_slice() {
        let need = join_parts(
            alloc,
            program,
            node,
            *name,
            find_next(bound, &mut in_bound, *name),
            find_next(body, &mut in_body, *name),
            problem,
        )?;
        push_need(&mut needs, *name, need)?;
    }
    Ok(needs)
}

/// Adds a need at the end, if there is one.
fn push_need(
    needs: &mut Sequence<(u32, MailboxType)>,
    name: u32,
    need: Option<MailboxType>,
) -> Result<(), AllocError>
    ensures { OnOk result (needs_view needs.new ≡ needs_view needs.old ++ need_here name (option_map type_view need)) }
{
    match need {
        Some(of) => needs.push((name, of)),
        None => Ok(()),
    }
}

/// What the choice or guard at a node needs, from what its branches need beside their own names.
#[tactic(auto, using(crate::proofs::Gathered::one_more))]
pub fn gather_branches(
    alloc: Global,
    program: &Program,
    node: u32,
    branches: &[Sequence<(u32, MailboxType)>],
    problem: &mut Problem,
) -> Result<Sequence<(u32, MailboxType)>, AllocError>
    ensures { Gathers program.now problem.old problem.new result
        (outer_gathered node (1 + length problem.old.vars) (map needs_view branches.now)) }
{
    let names = names_of(alloc, branches)?;
    let mut needs = Sequence::new(alloc);
    let mut cursors = first_places(alloc, branches)?;
    for name in names.as_slice() {
        let column = column_of(alloc, branches, &mut cursors, *name)?;
        let need = join_branches(alloc, program, node, *name, column.as_slice(), problem)?;
        push_need(&mut needs, *name, need)?;
    }
    Ok(needs)
}
