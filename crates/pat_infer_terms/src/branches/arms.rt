// Branches that have been walked.
ghost use Rattle.std.specs.Prelude.{◌≡◌, ◌+◌, length, map, option_map, IfOk};
ghost use Rattle.pat_infer_spec.specs.Constraints.{AtNode, BranchRule, each_unless, unless};
ghost use Rattle.pat_infer_spec.specs.Branches.{own_names, outer_needs, branches_agree};
ghost use Rattle.pat_core.specs.Views.{clause_view};
ghost use Rattle.pat_types.specs.Views.{needs_view};
ghost use Rattle.pat_infer_problems.specs.Results.{Meets, first_of};
ghost use Rattle.pat_infer_environments.specs.variables.Names.{names_of_outer};
ghost use Rattle.pat_infer_terms.specs.Gathering.{column_at, Gathers};
ghost use Rattle.pat_infer_spec.specs.Walk.{arms_findings, arms_gathered};
ghost use Rattle.pat_infer_terms.specs.branches.Arms.{arm_view};

use pat_core::{Clause, Program};
use pat_infer_environments::{
    column_of, do_agree, first_places, gather_branches, names_of, without,
};
use pat_infer_problems::{InferError, Problem, Rule, check_node};
use pat_sequences::Sequence;
use pat_types::{MailboxType, copy_needs};
use std::alloc::{AllocError, Global};

/// A branch that has been walked: the receive clause that it is of, if it is of one, and what its body needs.
#[derive(Drop)]
pub struct WalkedArm<'a> {
    pub clause: Option<&'a Clause>,
    pub needs: Sequence<(u32, MailboxType)>,
}

/// The names that a branch binds.
pub fn clause_names(alloc: Global, clause: Option<&Clause>) -> Result<Vec<u32>, AllocError>
    ensures { IfOk result (λ names. names.items ≡ own_names (option_map (λ r. clause_view r.now) clause.entry)) }
{
    match clause {
        None => Ok(Vec::new(alloc)),
        Some(clause) => {
            let mut names = Vec::from_slice(alloc, clause.vars.as_slice())?;
            names.push(clause.from)?;
            Ok(names)
        }
    }
}

/// What each branch needs beside its own names.
fn all_outer(
    alloc: Global,
    arms: &[WalkedArm],
) -> Result<Sequence<Sequence<(u32, MailboxType)>>, AllocError>
    ensures { IfOk result (λ all. map needs_view all ≡ map outer_needs (map arm_view arms.now)) }
{
    let mut all = Sequence::new(alloc);
    for arm in arms {
        let outer = outer_of(alloc, arm)?;
        all.push(outer)?;
    }
    Ok(all)
}

fn outer_of(alloc: Global, arm: &WalkedArm) -> Result<Sequence<(u32, MailboxType)>, AllocError>
    ensures { IfOk result (λ needs. needs_view needs ≡ outer_needs (arm_view arm.now)) }
{
    let names = clause_names(alloc, arm.clause)?;
    let mut needs = copy_needs(alloc, arm.needs.as_slice())?;
    without(&mut needs, names.as_slice());
    Ok(needs)
}

/// The rule of branches.
pub fn check_arms(
    alloc: Global,
    program: &Program,
    node: u32,
    arms: &[WalkedArm],
) -> Result<(), InferError>
    ensures { Meets program.now result (arms_findings node (map arm_view arms.now)) }
{
    let outer = all_outer(alloc, arms)?;
    check_branches(alloc, program, node, outer.as_slice())
}

/// What the choice or guard at a node needs, where its branches need this.
pub fn gather_arms(
    alloc: Global,
    program: &Program,
    node: u32,
    arms: &[WalkedArm],
    problem: &mut Problem,
) -> Result<Sequence<(u32, MailboxType)>, AllocError>
    ensures { Gathers program.now problem.old problem.new result
        (arms_gathered node (1 + length problem.old.vars) (map arm_view arms.now)) }
{
    let outer = all_outer(alloc, arms)?;
    gather_branches(alloc, program, node, outer.as_slice(), problem)
}

/// The rule of branches, which need this beside their own names.
fn check_branches(
    alloc: Global,
    program: &Program,
    node: u32,
    branches: &[Sequence<(u32, MailboxType)>],
) -> Result<(), InferError>
    ensures { Meets program.now result (each_unless (λ z. branches_agree (column_at z (map needs_view branches.now))) BranchRule
        (λ z. AtNode node) (names_of_outer (map needs_view branches.now))) }
{
    let names = names_of(alloc, branches)?;
    let holds = agree_on(alloc, node, names.as_slice(), branches)?;
    check_node(program, holds, Rule::Branch, node)
}

/// Whether the branches agree on each of the names.
fn agree_on(
    alloc: Global,
    node: u32,
    names: &[u32],
    branches: &[Sequence<(u32, MailboxType)>],
) -> Result<bool, AllocError>
    ensures { IfOk result (λ holds. first_of (unless holds BranchRule (AtNode node))
        ≡ first_of (each_unless (λ z. branches_agree (column_at z (map needs_view branches.now))) BranchRule
        (λ z. AtNode node) names.now)) }
{
    let mut cursors = first_places(alloc, branches)?;
    for name in names {
        let column = column_of(alloc, branches, &mut cursors, *name)?;
        if !do_agree(column.as_slice()) {
            return Ok(false);
        }
    }
    Ok(true)
}
