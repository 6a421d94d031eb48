// Names that are bound with a type: parameters, and the names of clauses. Rules and constraints.
ghost use Rattle.std.specs.Prelude.{◌≡◌, ◌++◌, [], map, option_map, Some, IfOk, OnOk};
ghost use Rattle.pat_type_system_spec.specs.Types.{mailbox_type};
ghost use Rattle.pat_type_schemes_spec.specs.Compared.{polarity_eq, usage_fits};
ghost use Rattle.pat_type_schemes_spec.specs.NodeTypes.{need_of};
ghost use Rattle.pat_infer_spec.specs.Constraints.{AtName, each_unless, UnusedRule, PolarityRule, SecondRule};
ghost use Rattle.pat_infer_spec.specs.Binders.{used_as, polarity_as, usage_as, binder_findings, binder_constraints, name_constraints, names_bound, name_before};
ghost use Rattle.pat_primitives.specs.Views.{polarity_view};
ghost use Rattle.pat_types.specs.Views.{usage_view, type_view, needs_view};
ghost use Rattle.pat_infer_problems.specs.Views.{placed_constraint, rule_view};
ghost use Rattle.pat_infer_problems.specs.Results.{Meets, first_of};
ghost use Rattle.pat_infer_problems.specs.Growing.{Grows};
ghost use Rattle.pat_infer_environments.specs.Types.{types_at};
ghost use Rattle.pat_infer_terms.specs.Views.{binder_view, broken_name};

use pat_core::Program;
use pat_infer_environments::{find, is_receiver, is_second, type_at};
use pat_infer_problems::{InferError, Problem, Rule, add_constraint, check_name, name_span};
use pat_patterns::Pattern;
use pat_primitives::Polarity;
use pat_sequences::Sequence;
use pat_types::{MailboxType, Usage};
use std::alloc::AllocError;

/// A name that is bound with a type, and what is needed of it.
#[derive(Drop)]
pub struct Binder {
    pub name: usize,
    pub of: MailboxType,
    pub need: Option<MailboxType>,
}

/// The name with what is needed of it.
pub fn bind(
    name: usize,
    of: MailboxType,
    needs: &[(u32, MailboxType)],
) -> Result<Binder, AllocError>
    ensures { IfOk result (λ b. binder_view b ≡ record { name = name; type = type_view of; need = need_of (needs_view needs.now) name }) }
{
    match find(needs, name) {
        Some(need) => {
            let copy = need.copy()?;
            Ok(Binder {
                name,
                of,
                need: Some(copy),
            })
        }
        None => Ok(Binder {
            name,
            of,
            need: None,
        }),
    }
}

/// Refuses a name that breaks a rule: first one that isn't needed, then one of the other polarity, then one needed as returnable.
pub fn check_names(program: &Program, function: usize, binders: &[Binder]) -> Result<(), InferError>
    ensures { Meets program.now result (binder_findings function (map binder_view binders.now)) }
{
    check_found(program, function, Rule::Unused, unused(function, binders))?;
    check_found(program, function, Rule::Polarity, turned(function, binders))?;
    check_found(program, function, Rule::Second, returned(function, binders))
}

fn check_found(
    program: &Program,
    function: usize,
    rule: Rule,
    found: Option<usize>,
) -> Result<(), InferError>
    ensures { Meets program.now result (broken_name (rule_view rule) function found) }
{
    match found {
        None => Ok(()),
        Some(name) => check_name(program, false, rule, function, name),
    }
}

/// The first receiving name that isn't needed.
fn unused(function: usize, binders: &[Binder]) -> Option<usize>
    ensures { first_of (broken_name UnusedRule function result)
        ≡ first_of (each_unless (λ b. used_as b.type.polarity b.need) UnusedRule (λ b. AtName function b.name)
        (map binder_view binders.now)) }
{
    for binder in binders {
        if !is_used(binder) {
            return Some(binder.name);
        }
    }
    None
}

/// The first name that is needed as the other polarity.
fn turned(function: usize, binders: &[Binder]) -> Option<usize>
    ensures { first_of (broken_name PolarityRule function result)
        ≡ first_of (each_unless (λ b. polarity_as b.type.polarity b.need) PolarityRule (λ b. AtName function b.name)
        (map binder_view binders.now)) }
{
    for binder in binders {
        if !has_polarity(binder) {
            return Some(binder.name);
        }
    }
    None
}

/// The first second-class name that is needed as returnable.
fn returned(function: usize, binders: &[Binder]) -> Option<usize>
    ensures { first_of (broken_name SecondRule function result)
        ≡ first_of (each_unless (λ b. usage_as b.type.usage b.need) SecondRule (λ b. AtName function b.name)
        (map binder_view binders.now)) }
{
    for binder in binders {
        if !has_usage(binder) {
            return Some(binder.name);
        }
    }
    None
}

fn is_used(binder: &Binder) -> bool
    ensures { result ≡ used_as (binder_view binder.now).type.polarity (binder_view binder.now).need }
{
    match &binder.need {
        Some(_) => true,
        None => !is_receiver(binder.of.polarity),
    }
}

fn has_polarity(binder: &Binder) -> bool
    ensures { result ≡ polarity_as (binder_view binder.now).type.polarity (binder_view binder.now).need }
{
    match &binder.need {
        Some(need) => same_polarity(binder.of.polarity, need.polarity),
        None => true,
    }
}

fn has_usage(binder: &Binder) -> bool
    ensures { result ≡ usage_as (binder_view binder.now).type.usage (binder_view binder.now).need }
{
    match &binder.need {
        Some(need) => !is_second(binder.of.usage) || is_second(need.usage),
        None => true,
    }
}

/// Whether the polarities are the same.
pub fn same_polarity(first: Polarity, second: Polarity) -> bool
    ensures { result ≡ polarity_eq (polarity_view first) (polarity_view second) }
{
    match first {
        Polarity::Sending => !is_receiver(second),
        Polarity::Receiving => is_receiver(second),
    }
}

/// Adds the constraint of each name.
pub fn constrain_names(
    program: &Program,
    function: usize,
    binders: &[Binder],
    problem: &mut Problem,
) -> Result<(), AllocError>
    ensures { OnOk result (Grows problem.old problem.new []
        (map (placed_constraint program.now) (binder_constraints function (map binder_view binders.now))) []) }
{
    for binder in binders {
        constrain_name(program, function, binder, problem)?;
    }
    Ok(())
}

// A sending name's pattern has what is needed, and the empty word where nothing is; a receiving name's words are taken.
fn constrain_name(
    program: &Program,
    function: usize,
    binder: &Binder,
    problem: &mut Problem,
) -> Result<(), AllocError>
    ensures { OnOk result (Grows problem.old problem.new []
        (map (placed_constraint program.now) (name_constraints (AtName function binder.now.name) binder.now.of.interface
        (polarity_view binder.now.of.polarity) (type_view binder.now.of).pattern (binder_view binder.now).need)) []) }
{
    let span = name_span(program, function, binder.name);
    let own = binder.of.pattern.copy()?;
    match (binder.of.polarity, &binder.need) {
        (Polarity::Sending, None) => {
            add_constraint(problem, binder.of.interface, Pattern::One, own, span)
        }
        (Polarity::Sending, Some(need)) => {
            let left = need.pattern.copy()?;
            add_constraint(problem, binder.of.interface, left, own, span)
        }
        (Polarity::Receiving, None) => Ok(()),
        (Polarity::Receiving, Some(need)) => {
            let right = need.pattern.copy()?;
            add_constraint(problem, binder.of.interface, own, right, span)
        }
    }
}

/// The names with the types at their places, and what is needed of them.
pub fn bind_all(
    types: &[Option<MailboxType>],
    names: &[u32],
    needs: &[(u32, MailboxType)],
    binders: &mut Sequence<Binder>,
) -> Result<(), AllocError>
    ensures { OnOk result (map binder_view binders.new
        ≡ map binder_view binders.old
        ++ names_bound (types_at (map (option_map type_view) types.now)) 0 names.now (needs_view needs.now)) }
{
    for (place, name) in names.iter().enumerate() {
        bind_at(types, place, *name as usize, needs, binders)?;
    }
    Ok(())
}

/// A name with the type at a place, if this is a mailbox, and what is needed of it.
pub fn bind_at(
    types: &[Option<MailboxType>],
    place: usize,
    name: usize,
    needs: &[(u32, MailboxType)],
    binders: &mut Sequence<Binder>,
) -> Result<(), AllocError>
    ensures { OnOk result (map binder_view binders.new
        ≡ map binder_view binders.old
        ++ name_before name (types_at (map (option_map type_view) types.now) place) (need_of (needs_view needs.now) name) []) }
{
    match type_at(types, place) {
        None => Ok(()),
        Some(of) => {
            let of = of.copy()?;
            let binder = bind(name, of, needs)?;
            binders.push(binder)
        }
    }
}
