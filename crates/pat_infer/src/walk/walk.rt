// The walk of a term: what it needs, where it is asked for a type.
ghost use Rattle.std.specs.Prelude.{◌≡◌, ◌+◌, ◌<◌, ◌∷◌, ◌++◌, List, [], Some, None, length, map, option_map, is_some, slice_get, suc, ℕ, IfOk, OnOk};
ghost use Rattle.pat_words_spec.specs.Patterns.{Pat};
ghost use Rattle.pat_semantics_spec.specs.Programs.{node_at};
ghost use Rattle.pat_type_system_spec.specs.Types as types;
ghost use Rattle.pat_infer_spec.specs.Constraints.{Found};
ghost use Rattle.pat_infer_spec.specs.Needs.{needs_second};
ghost use Rattle.pat_infer_spec.specs.Walk.{walk as walk_of, core_found, var_interface as interface_in, walk_arms, if_from, two_branches, guard_found, branches_of as branches_in, body_needs};
ghost use Rattle.pat_core.specs.declared.program.Clause.{Clause as CodeClause};
ghost use Rattle.pat_core.specs.Views.{program_view, node_view, core_view, clause_view};
ghost use Rattle.pat_infer_problems.specs.signatures.Views.{signature_view};
ghost use Rattle.pat_patterns.specs.Views.{pattern_view};
ghost use Rattle.pat_types.specs.Views.{needs_view, result_view};
ghost use Rattle.pat_infer_problems.specs.Growing.{Grows};
ghost use Rattle.pat_infer_problems.specs.declared.problem.Problem.{Problem as GhostProblem};
ghost use Rattle.pat_infer.specs.walk.Chains.{core_body, node_body, next_body, node_bound, let_around, climbed};
ghost use Rattle.pat_infer.specs.walk.Walking.{IsSigned, InfersArms, branch_view};
ghost use Rattle.pat_infer_problems.specs.Walked.{IsWalked, Infers};

use pat_core::{Clause, Core, Kind, Node, Program};
use pat_infer_environments::{asked_of, join_let, without};
use pat_infer_problems::{InferError, Problem, Signature, set_node};
use pat_infer_terms::{
    Guarded, WalkedArm, call_needs, check_arms, constrain_new, gather_arms, guard_needs,
    send_needs, value_needs,
};
use pat_primitives::Base;
use pat_sequences::{Sequence, Stack};
use pat_types::{MailboxType, NodeType, TypeOf, Usage, copy_needs};
use std::alloc::{AllocError, Global};

/// A program with its signatures.
#[derive(Clone, Copy)]
pub struct Signed<'a> {
    pub program: &'a Program,
    pub signatures: &'a [Signature],
}

/// A branch of a choice or a guard: its body, and the receive clause that it is of, if it is of one.
#[derive(Clone, Copy)]
pub struct Branch<'a> {
    pub body: u32,
    pub clause: Option<&'a Clause>,
}

/// Walks a node whose parts stand on at most so many levels. A chain of lets is walked by loops: its last body first, and
/// then the lets from the inside out.
#[cycle(terms)]
pub fn walk(
    alloc: Global,
    signed: &Signed,
    levels: usize,
    node: u32,
    asked: &TypeOf,
    problem: &mut Problem,
) -> Result<Sequence<(u32, MailboxType)>, InferError>
    requires { IsSigned signed.now }
    ensures { Infers signed.now.program.now problem.old problem.new result
        (walk_of levels (program_view signed.now.program.now) node (result_view asked.now) (1 + length problem.old.vars)) }
{
    let chain = chain_of(alloc, signed.program, levels, node)?;
    let needs = walk_inner(alloc, signed, chain.level, chain.last, asked, problem)?;
    close_lets(
        alloc,
        signed,
        chain.level,
        chain.lets,
        asked,
        needs,
        problem,
    )
}

/// The lets that stand one in the other's body, the innermost one on top; the last body; and how many levels are left for it.
#[derive(Drop)]
struct Chain {
    lets: Stack<u32>,
    level: usize,
    last: u32,
}

fn chain_of(alloc: Global, program: &Program, levels: usize, node: u32) -> Result<Chain, AllocError>
    ensures climbs { IfOk result (λ c. (t : types.TypeOf) (k : ℕ)
        → climbed (program_view program.now) t k c.level c.lets (walk_of c.level (program_view program.now) c.last t k)
        ≡ walk_of levels (program_view program.now) node t k) }
    ensures count { IfOk result (λ c. length c.lets + c.level ≡ levels) }
    ensures last { IfOk result (λ c. next_body c.level (node_at (program_view program.now) c.last) ≡ None) }
{
    let mut lets = Stack::new(alloc);
    let mut level = levels;
    let mut last = node;
    while let Some(body) = body_below(program, level, last) {
        lets.push(last)?;
        last = body;
        level -= 1;
    }
    Ok(Chain { lets, level, last })
}

/// The body of a let, where a level is left.
fn body_below(program: &Program, level: usize, node: u32) -> Option<u32>
    ensures { result ≡ next_body level (node_at (program_view program.now) node) }
{
    if level == 0 {
        None
    } else {
        let_body(program, node)
    }
}

/// The body of a let.
fn let_body(program: &Program, node: u32) -> Option<u32>
    ensures { result ≡ node_body (node_at (program_view program.now) node) }
{
    match program.nodes.as_slice().get(node as usize) {
        Some(there) => match &there.core {
            Core::Let { body, .. } => Some(*body),
            _ => None,
        },
        None => None,
    }
}

/// Walks the last body of a chain of lets.
#[cycle(terms)]
fn walk_inner(
    alloc: Global,
    signed: &Signed,
    level: usize,
    node: u32,
    asked: &TypeOf,
    problem: &mut Problem,
) -> Result<Sequence<(u32, MailboxType)>, InferError>
    requires signed { IsSigned signed.now }
    requires last { next_body level (node_at (program_view signed.now.program.now) node) ≡ None }
    ensures { Infers signed.now.program.now problem.old problem.new result
        (walk_of level (program_view signed.now.program.now) node (result_view asked.now) (1 + length problem.old.vars)) }
{
    if level == 0 {
        Ok(Sequence::new(alloc))
    } else {
        walk_last(alloc, signed, level - 1, node, asked, problem)
    }
}

/// Closes the lets of a chain, whose last body needs this, from the inside out.
#[cycle(terms)]
fn close_lets(
    alloc: Global,
    signed: &Signed,
    level: usize,
    lets: Stack<u32>,
    asked: &TypeOf,
    inner: Sequence<(u32, MailboxType)>,
    problem: &mut Problem,
) -> Result<Sequence<(u32, MailboxType)>, InferError>
    requires signed { IsSigned signed.now }
    requires fits { length lets + level < 18446744073709551616 }
    ensures { (first : GhostProblem) (r : Found) → IsWalked signed.now.program.now first problem.old inner r
        → Infers signed.now.program.now first problem.new result
        (climbed (program_view signed.now.program.now) (result_view asked.now) (1 + length first.vars) level lets r) }
{
    let mut left = lets;
    let mut at = level;
    let mut needs = inner;
    while let Some(outer) = left.pop() {
        needs = close_let(alloc, signed, at, outer, asked, needs, problem)?;
        at += 1;
    }
    Ok(needs)
}

/// Walks a node that is no let.
#[cycle(terms)]
fn walk_last(
    alloc: Global,
    signed: &Signed,
    levels: usize,
    node: u32,
    asked: &TypeOf,
    problem: &mut Problem,
) -> Result<Sequence<(u32, MailboxType)>, InferError>
    requires signed { IsSigned signed.now }
    requires last { node_body (node_at (program_view signed.now.program.now) node) ≡ None }
    ensures { Infers signed.now.program.now problem.old problem.new result
        (walk_of (suc levels) (program_view signed.now.program.now) node (result_view asked.now) (1 + length problem.old.vars)) }
{
    match node_of(signed.program, node) {
        None => Ok(Sequence::new(alloc)),
        Some(there) => {
            let needs = walk_core(alloc, signed, levels, node, there, asked, problem)?;
            keep_node(alloc, node, asked, needs.as_slice(), problem)?;
            Ok(needs)
        }
    }
}

/// A node, if it is there.
fn node_of(program: &Program, node: u32) -> Option<&Node>
    ensures { option_map (λ d. node_view d.now) result ≡ node_at (program_view program.now) node }
{
    program.nodes.as_slice().get(node as usize)
}

/// A function's signature, if it is there.
fn signature_of(signatures: &[Signature], function: u32) -> Option<&Signature>
    ensures { option_map (λ s. signature_view s.now) result ≡ slice_get (map signature_view signatures.now) function }
{
    signatures.get(function as usize)
}

/// Sets the type and the needs of a node.
fn keep_node(
    alloc: Global,
    node: u32,
    asked: &TypeOf,
    needs: &[(u32, MailboxType)],
    problem: &mut Problem,
) -> Result<(), AllocError>
    ensures { OnOk result (Grows problem.old problem.new [] []
        ((node, record { result = result_view asked.now; needs = needs_view needs.now }) ∷ [])) }
{
    let result = asked.copy()?;
    let env = copy_needs(alloc, needs)?;
    set_node(problem, node, NodeType { result, env });
    Ok(())
}

#[cycle(terms)]
fn walk_core(
    alloc: Global,
    signed: &Signed,
    levels: usize,
    node: u32,
    there: &Node,
    asked: &TypeOf,
    problem: &mut Problem,
) -> Result<Sequence<(u32, MailboxType)>, InferError>
    requires signed { IsSigned signed.now }
    requires last { core_body (core_view there.now.core) ≡ None }
    ensures { Infers signed.now.program.now problem.old problem.new result
        (core_found (program_view signed.now.program.now) (walk_of levels (program_view signed.now.program.now)) there.now.function node
        (1 + length problem.old.vars) (result_view asked.now) (core_view there.now.core)) }
{
    let program = signed.program;
    match &there.core {
        Core::Value(value) => {
            let needs = value_needs(alloc, asked, value)?;
            Ok(needs)
        }
        Core::Print(_) | Core::Let { .. } => Ok(Sequence::new(alloc)),
        Core::New(interface) => {
            constrain_new(program, node, *interface, asked, problem)?;
            Ok(Sequence::new(alloc))
        }
        Core::Call { function, args } => {
            match signature_of(signed.signatures, *function) {
                None => Ok(Sequence::new(alloc)),
                Some(signature) => {
                    call_needs(
                        alloc,
                        program,
                        node,
                        signature,
                        args.as_slice(),
                        asked,
                        problem,
                    )
                }
            }
        }
        Core::Send { target, tag, args } => {
            let interface = var_interface(program, there.function, *target);
            send_needs(
                alloc,
                program,
                node,
                interface,
                *target,
                *tag,
                args.as_slice(),
            )
        }
        Core::Spawn(body) => {
            let unit = TypeOf::Base(Base::Unit);
            let needs = walk(alloc, signed, levels, *body, &unit, problem)?;
            let second = taken_as_second(alloc, needs.as_slice())?;
            Ok(second)
        }
        Core::If { yes, no, .. } => walk_choice(
            alloc, signed, levels, node, *yes, *no, asked, problem,
        ),
        Core::Guard {
            var,
            pattern,
            free,
            receives,
        } => {
            let guarded = Guarded {
                function: there.function,
                node,
                variable: *var,
                interface: var_interface(program, there.function, *var),
                pattern,
                has_free: free.is_some(),
                clauses: receives.as_slice(),
            };
            walk_guard(alloc, signed, levels, &guarded, *free, asked, problem)
        }
    }
}

/// The interface of a function's variable, and 0 for one that is no mailbox.
fn var_interface(program: &Program, function: u32, variable: u32) -> u32
    ensures { result ≡ interface_in (program_view program.now) function variable }
{
    match program.functions.as_slice().get(function as usize) {
        None => 0,
        Some(there) => match there.vars.as_slice().get(variable as usize) {
            Some(Kind::Mailbox(interface)) => *interface,
            _ => 0,
        },
    }
}

/// The needs, all as second-class.
fn taken_as_second(
    alloc: Global,
    needs: &[(u32, MailboxType)],
) -> Result<Sequence<(u32, MailboxType)>, AllocError>
    ensures { IfOk result (λ second. needs_view second ≡ needs_second (needs_view needs.now)) }
{
    let mut second = Sequence::new(alloc);
    for (variable, of) in needs {
        let mut copy = of.copy()?;
        copy.usage = Usage::Second;
        second.push((*variable, copy))?;
    }
    Ok(second)
}

#[cycle(terms)]
fn walk_choice(
    alloc: Global,
    signed: &Signed,
    levels: usize,
    node: u32,
    yes: u32,
    no: u32,
    asked: &TypeOf,
    problem: &mut Problem,
) -> Result<Sequence<(u32, MailboxType)>, InferError>
    requires { IsSigned signed.now }
    ensures { Infers signed.now.program.now problem.old problem.new result
        (if_from node (1 + length problem.old.vars)
        (walk_arms (walk_of levels (program_view signed.now.program.now)) (result_view asked.now) (1 + length problem.old.vars)
        (two_branches yes no))) }
{
    let branches = [
        Branch {
            body: yes,
            clause: None,
        },
        Branch {
            body: no,
            clause: None,
        },
    ];
    let arms = walk_branches(alloc, signed, levels, &branches, asked, problem)?;
    check_arms(alloc, signed.program, node, arms.as_slice())?;
    let all = gather_arms(alloc, signed.program, node, arms.as_slice(), problem)?;
    Ok(all)
}

#[cycle(terms)]
fn walk_guard(
    alloc: Global,
    signed: &Signed,
    levels: usize,
    guarded: &Guarded,
    free: Option<u32>,
    asked: &TypeOf,
    problem: &mut Problem,
) -> Result<Sequence<(u32, MailboxType)>, InferError>
    requires { IsSigned signed.now }
    ensures { Infers signed.now.program.now problem.old problem.new result
        (guard_found (program_view signed.now.program.now) guarded.now.function guarded.now.node
        (1 + length problem.old.vars + length (walk_arms (walk_of levels (program_view signed.now.program.now)) (result_view asked.now)
        (1 + length problem.old.vars) (branches_in free (map clause_view guarded.now.clauses.now))).vars) guarded.now.variable
        (pattern_view guarded.now.pattern.now) guarded.now.interface guarded.now.has_free (map clause_view guarded.now.clauses.now)
        (walk_arms (walk_of levels (program_view signed.now.program.now)) (result_view asked.now) (1 + length problem.old.vars)
        (branches_in free (map clause_view guarded.now.clauses.now)))) }
{
    let branches = branches_of(alloc, free, guarded.clauses)?;
    let arms = walk_branches(alloc, signed, levels, branches.as_slice(), asked, problem)?;
    guard_needs(alloc, signed.program, guarded, arms.as_slice(), problem)
}

/// The branches of a guard: the body of the free clause stands before those of greater numbers.
fn branches_of<'a>(
    alloc: Global,
    free: Option<u32>,
    clauses: &'a [Clause],
) -> Result<Vec<Branch<'a>>, AllocError>
    ensures { IfOk result (λ bs. map branch_view bs.items ≡ branches_in free (map clause_view clauses.now)) }
{
    let mut branches = Vec::new(alloc);
    let mut waiting = free;
    for clause in clauses {
        waiting = add_branch(waiting, clause, &mut branches)?;
    }
    if let Some(body) = waiting {
        branches.push(Branch { body, clause: None })?;
    }
    Ok(branches)
}

/// The branch of a clause, behind that of the free clause if this comes first; answers whether the latter still waits.
#[tactic(auto, using(crate::proofs::Parts::branch_added))]
fn add_branch<'a>(
    waiting: Option<u32>,
    clause: &'a Clause,
    branches: &mut Vec<Branch<'a>>,
) -> Result<Option<u32>, AllocError>
    ensures { IfOk result (λ w. (rest : List CodeClause)
        → map branch_view branches.new.items ++ branches_in w (map clause_view rest) ≡ map branch_view branches.old.items
        ++ branches_in waiting (clause_view clause.now ∷ map clause_view rest)) }
{
    match waiting {
        None => {
            branches.push(Branch {
                body: clause.body,
                clause: Some(clause),
            })?;
            Ok(None)
        }
        Some(body) => {
            if body < clause.body {
                branches.push(Branch { body, clause: None })?;
                branches.push(Branch {
                    body: clause.body,
                    clause: Some(clause),
                })?;
                Ok(None)
            } else {
                branches.push(Branch {
                    body: clause.body,
                    clause: Some(clause),
                })?;
                Ok(Some(body))
            }
        }
    }
}

/// Walks branches in order.
#[cycle(terms)]
fn walk_branches<'a>(
    alloc: Global,
    signed: &Signed,
    levels: usize,
    branches: &[Branch<'a>],
    asked: &TypeOf,
    problem: &mut Problem,
) -> Result<Sequence<WalkedArm<'a>>, InferError>
    requires { IsSigned signed.now }
    ensures { InfersArms signed.now.program.now problem.old problem.new result
        (walk_arms (walk_of levels (program_view signed.now.program.now)) (result_view asked.now) (1 + length problem.old.vars)
        (map branch_view branches.now)) }
{
    let mut arms = Sequence::new(alloc);
    for branch in branches {
        let needs = walk(alloc, signed, levels, branch.body, asked, problem)?;
        arms.push(WalkedArm {
            clause: branch.clause,
            needs,
        })?;
    }
    Ok(arms)
}

/// Goes on with a let whose body needs this: walks the bound part, and joins the two.
#[cycle(terms)]
fn close_let(
    alloc: Global,
    signed: &Signed,
    levels: usize,
    node: u32,
    asked: &TypeOf,
    body: Sequence<(u32, MailboxType)>,
    problem: &mut Problem,
) -> Result<Sequence<(u32, MailboxType)>, InferError>
    requires { IsSigned signed.now }
    ensures { (first : GhostProblem) (r : Found) → IsWalked signed.now.program.now first problem.old body r
        → Infers signed.now.program.now first problem.new result
        (let_around (program_view signed.now.program.now) levels node (result_view asked.now) (1 + length first.vars)
        (node_at (program_view signed.now.program.now) node) r) }
{
    match let_parts(signed.program, node) {
        None => Ok(body),
        Some((name, part)) => {
            let wanted = asked_of(signed.program, part, name, body.as_slice())?;
            let bound = walk(alloc, signed, levels, part, &wanted, problem)?;
            let inner = beside(name, body);
            let needs = join_let(
                alloc,
                signed.program,
                node,
                bound.as_slice(),
                inner,
                problem,
            )?;
            keep_node(alloc, node, asked, needs.as_slice(), problem)?;
            Ok(needs)
        }
    }
}

/// The name and the bound part of a let.
fn let_parts(program: &Program, node: u32) -> Option<(Option<u32>, u32)>
    ensures { result ≡ node_bound (node_at (program_view program.now) node) }
{
    match program.nodes.as_slice().get(node as usize) {
        Some(there) => match &there.core {
            Core::Let { var, bound, .. } => Some((*var, *bound)),
            _ => None,
        },
        None => None,
    }
}

/// What the body needs beside the name.
#[tactic(auto, using(crate::proofs::Parts::nothing_off))]
fn beside(name: Option<u32>, body: Sequence<(u32, MailboxType)>) -> Sequence<(u32, MailboxType)>
    ensures { needs_view result ≡ body_needs name (needs_view body) }
{
    match name {
        None => body,
        Some(variable) => {
            let mut needs = body;
            without(&mut needs, &[variable]);
            needs
        }
    }
}
