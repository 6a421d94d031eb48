// Guards: their rules, their names, and what they need.
ghost use Rattle.std.specs.Prelude.{◌≡◌, ◌+◌, ◌++◌, Some, not, is_none, length, map, option_map, IfOk, OnOk};
ghost use Rattle.std.specs.List.{list_any};
ghost use Rattle.std.specs.Map.{keys_of};
ghost use Rattle.pat_semantics_spec.specs.Programs.{is_among, tag_at};
ghost use Rattle.pat_semantics_spec.specs.Faults.{payloads_of};
ghost use Rattle.pat_words_spec.specs.Patterns.{covers as covers_of};
ghost use Rattle.pat_type_system_spec.specs.Typings.{is_received};
ghost use Rattle.pat_type_system_spec.specs.Holdings.{declared_types};
ghost use Rattle.pat_infer_spec.specs.Binders.{names_bound};
ghost use Rattle.pat_type_schemes_spec.specs.NodeTypes.{need_of};
ghost use Rattle.pat_infer_spec.specs.Constraints.{AtNode, OrderRule, PayloadRule, CoversRule, each_unless, unless};
ghost use Rattle.pat_infer_spec.specs.Walk.{has_mailbox as has_mailbox_of, clause_keeps, keeps_own, arm_binders, guard_binders};
ghost use Rattle.pat_core.specs.Views.{sort_view, clause_view, tag_view, program_view};
ghost use Rattle.pat_patterns.specs.Views.{pattern_view};
ghost use Rattle.pat_types.specs.Views.{needs_view};
ghost use Rattle.pat_infer_problems.specs.Results.{Meets, first_of};
ghost use Rattle.pat_infer_terms.specs.Views.{binder_view};
ghost use Rattle.pat_infer_terms.specs.branches.Arms.{arm_view};
ghost use Rattle.pat_infer_terms.specs.branches.Guards.{own_guard};
ghost use Rattle.pat_infer_problems.specs.Walked.{Infers};

use crate::branches::arms::{WalkedArm, check_arms, clause_names, gather_arms};
use crate::names::{bind, bind_all};
use crate::terms::{tag_of, types_of_tag};
use crate::{Binder, check_names, constrain_names};
use pat_core::{Clause, Program, Sort, TagDecl};
use pat_infer_environments::{find, is_named, put};
use pat_infer_problems::{InferError, Problem, Rule, check_node};
use pat_patterns::{Pattern, residual};
use pat_primitives::Polarity;
use pat_sequences::Sequence;
use pat_types::{MailboxType, Usage, is_covered, is_mailbox};
use std::alloc::{AllocError, Global};

/// A guard of a pattern on a variable: its function, its node, and the interface of the variable.
#[derive(Clone, Copy)]
pub struct Guarded<'a> {
    pub function: u32,
    pub node: u32,
    pub variable: u32,
    pub interface: u32,
    pub pattern: &'a Pattern,
    pub has_free: bool,
    pub clauses: &'a [Clause],
}

/// What a guard needs, where its branches need this.
#[tactic(auto, using(pat_infer_problems::proofs::Joining::in_order, crate::proofs::Order::guard_joined))]
pub fn guard_needs(
    alloc: Global,
    program: &Program,
    guarded: &Guarded,
    arms: &[WalkedArm],
    problem: &mut Problem,
) -> Result<Sequence<(u32, MailboxType)>, InferError>
    ensures { Infers program.now problem.old problem.new result
        (own_guard (program_view program.now) guarded.now (1 + length problem.old.vars) (map arm_view arms.now)) }
{
    check_order(program, guarded.node, guarded.variable, arms)?;
    check_arms(alloc, program, guarded.node, arms)?;
    check_payloads(alloc, program, guarded.node, guarded.interface, arms)?;
    check_cover(program, guarded)?;
    let binders = binders_of(alloc, program, guarded, arms)?;
    check_names(program, guarded.function as usize, binders.as_slice())?;
    constrain_names(
        program,
        guarded.function as usize,
        binders.as_slice(),
        problem,
    )?;
    let mut all = gather_arms(alloc, program, guarded.node, arms, problem)?;
    let pattern = guarded.pattern.copy()?;
    put(
        &mut all,
        guarded.variable,
        MailboxType {
            interface: guarded.interface,
            polarity: Polarity::Receiving,
            pattern,
            usage: Usage::Returnable,
        },
    )?;
    Ok(all)
}

/// No branch needs the guarded variable.
fn check_order(
    program: &Program,
    node: u32,
    variable: u32,
    arms: &[WalkedArm],
) -> Result<(), InferError>
    ensures { Meets program.now result (each_unless (λ a. is_none (need_of a.needs variable)) OrderRule (λ a. AtNode node)
        (map arm_view arms.now)) }
{
    let in_order = none_needs(node, variable, arms);
    check_node(program, in_order, Rule::Order, node)
}

/// Each clause with a mailbox among its payloads needs its own names alone.
fn check_payloads(
    alloc: Global,
    program: &Program,
    node: u32,
    interface: u32,
    arms: &[WalkedArm],
) -> Result<(), InferError>
    ensures { Meets program.now result (each_unless (keeps_own (program_view program.now) interface) PayloadRule (λ a. AtNode node)
        (map arm_view arms.now)) }
{
    let keep = all_keep(alloc, program, node, interface, arms)?;
    check_node(program, keep, Rule::Payload, node)
}

/// The clauses cover the pattern.
fn check_cover(program: &Program, guarded: &Guarded) -> Result<(), InferError>
    ensures { Meets program.now result (unless
        (covers_of (pattern_view guarded.now.pattern.now)
        (is_received (map clause_view guarded.now.clauses.now)) guarded.now.has_free) CoversRule (AtNode guarded.now.node)) }
{
    let covered = is_covered(guarded.pattern, guarded.clauses, guarded.has_free);
    check_node(program, covered, Rule::Covers, guarded.node)
}

/// Whether no branch needs the guarded variable.
fn none_needs(node: u32, variable: u32, arms: &[WalkedArm]) -> bool
    ensures { first_of (unless result OrderRule (AtNode node))
        ≡ first_of (each_unless (λ a. is_none (need_of a.needs variable)) OrderRule (λ a. AtNode node) (map arm_view arms.now)) }
{
    for arm in arms {
        if find(arm.needs.as_slice(), variable as usize).is_some() {
            return false;
        }
    }
    true
}

/// Whether each clause with a mailbox among its payloads needs its own names alone.
fn all_keep(
    alloc: Global,
    program: &Program,
    node: u32,
    interface: u32,
    arms: &[WalkedArm],
) -> Result<bool, AllocError>
    ensures { IfOk result (λ keep. first_of (unless keep PayloadRule (AtNode node))
        ≡ first_of (each_unless (keeps_own (program_view program.now) interface) PayloadRule (λ a. AtNode node) (map arm_view arms.now))) }
{
    for arm in arms {
        let keep = keeps(alloc, program, interface, arm)?;
        if !keep {
            return Ok(false);
        }
    }
    Ok(true)
}

fn keeps(
    alloc: Global,
    program: &Program,
    interface: u32,
    arm: &WalkedArm,
) -> Result<bool, AllocError>
    ensures { IfOk result (λ keep. keep ≡ keeps_own (program_view program.now) interface (arm_view arm.now)) }
{
    match arm.clause {
        None => Ok(true),
        Some(clause) => {
            let names = clause_names(alloc, Some(clause))?;
            let outside = needs_outside(names.as_slice(), arm.needs.as_slice());
            Ok(!has_mailbox(tag_of(program, interface, clause.tag)) || !outside)
        }
    }
}

/// Whether a variable is needed that isn't one of the names.
fn needs_outside(names: &[u32], needs: &[(u32, MailboxType)]) -> bool
    ensures { result ≡ list_any (λ x. not (is_among x names.now)) (keys_of (needs_view needs.now)) }
{
    for (variable, _) in needs {
        if !is_named(names, *variable) {
            return true;
        }
    }
    false
}

/// Whether a payload of the tag is a mailbox.
fn has_mailbox(tag: Option<&TagDecl>) -> bool
    ensures { result ≡ has_mailbox_of (payloads_of (option_map (λ t. tag_view t.now) tag.entry)) }
{
    match tag {
        None => false,
        Some(tag) => some_mailbox(tag.payloads.as_slice()),
    }
}

fn some_mailbox(payloads: &[Sort]) -> bool
    ensures { result ≡ has_mailbox_of (map sort_view payloads.now) }
{
    for sort in payloads {
        if is_mailbox(sort) {
            return true;
        }
    }
    false
}

/// The names that the branches bind, with their types and what is needed of them.
fn binders_of(
    alloc: Global,
    program: &Program,
    guarded: &Guarded,
    arms: &[WalkedArm],
) -> Result<Sequence<Binder>, AllocError>
    ensures { IfOk result (λ bs. map binder_view bs
        ≡ guard_binders (program_view program.now) guarded.now.interface (pattern_view guarded.now.pattern.now) (map arm_view arms.now)) }
{
    let mut binders = Sequence::new(alloc);
    for arm in arms {
        add_binders(
            alloc,
            program,
            guarded.interface,
            guarded.pattern,
            arm,
            &mut binders,
        )?;
    }
    Ok(binders)
}

// What is left of the mailbox, then the payloads.
fn add_binders(
    alloc: Global,
    program: &Program,
    interface: u32,
    pattern: &Pattern,
    arm: &WalkedArm,
    binders: &mut Sequence<Binder>,
) -> Result<(), AllocError>
    ensures { OnOk result (map binder_view binders.new ≡ map binder_view binders.old
        ++ arm_binders (program_view program.now) interface (pattern_view pattern.now) (arm_view arm.now).needs (arm_view arm.now).clause) }
{
    match arm.clause {
        None => Ok(()),
        Some(clause) => add_clause(
            alloc,
            program,
            interface,
            pattern,
            clause,
            arm.needs.as_slice(),
            binders,
        ),
    }
}

fn add_clause(
    alloc: Global,
    program: &Program,
    interface: u32,
    pattern: &Pattern,
    clause: &Clause,
    needs: &[(u32, MailboxType)],
    binders: &mut Sequence<Binder>,
) -> Result<(), AllocError>
    ensures { OnOk result (map binder_view binders.new ≡ map binder_view binders.old
        ++ arm_binders (program_view program.now) interface (pattern_view pattern.now) (needs_view needs.now)
        (Some (clause_view clause.now))) }
{
    let rest = residual(alloc, pattern, clause.tag)?;
    let left = MailboxType {
        interface,
        polarity: Polarity::Receiving,
        pattern: rest,
        usage: Usage::Returnable,
    };
    let binder = bind(clause.from as usize, left, needs)?;
    binders.push(binder)?;
    add_payloads(
        alloc,
        tag_of(program, interface, clause.tag),
        clause.vars.as_slice(),
        needs,
        binders,
    )?;
    Ok(())
}

/// The names of a tag's payloads.
#[tactic(auto, using(crate::proofs::Outer::bound_by))]
fn add_payloads(
    alloc: Global,
    tag: Option<&TagDecl>,
    names: &[u32],
    needs: &[(u32, MailboxType)],
    binders: &mut Sequence<Binder>,
) -> Result<(), AllocError>
    ensures { OnOk result (map binder_view binders.new ≡ map binder_view binders.old
        ++ names_bound (declared_types (option_map (λ t. tag_view t.now) tag.entry)) 0 names.now (needs_view needs.now)) }
{
    let types = types_of_tag(alloc, tag)?;
    bind_all(types.as_slice(), names, needs, binders)?;
    Ok(())
}
