// The inclusion that a demand needs.
ghost use Rattle.std.specs.Prelude.{◌≡◌, [], ◌∷◌, Some, option_map, option_copied, IfOk, IfSome};
ghost use Rattle.pat_words_spec.specs.Patterns.{pat_eq, prod_of};
ghost use Rattle.pat_patterns.specs.Views.{pattern_view};
ghost use Rattle.pat_types.specs.Views.{type_view};
ghost use Rattle.pat_derivation_spec.specs.Demands.{Pass, Divide, same_interface, one_interface, inclusion, fit_inclusion, join_inclusions, inclusions_of};
ghost use Rattle.pat_obligations.specs.Views.{demand_view};
ghost use Rattle.pat_certificate_checks.specs.Views.{side_view, inclusion_view, reflexive_view, listed};

use pat_certificate_values::same_pattern;
use pat_obligations::Demand;
use pat_patterns::{Pattern, product};
use pat_primitives::Polarity;
use pat_types::MailboxType;
use std::alloc::{AllocError, Global};

/// The left side of an inclusion.
#[derive(Drop)]
pub enum Side<'a> {
    /// The pattern of a type.
    Lent(&'a Pattern),
    /// A product of two of them.
    Made(Pattern),
}

impl<'a> Side<'a> {
    /// The pattern.
    pub fn as_pattern(&self) -> &Pattern
        ensures { pattern_view result.now ≡ side_view self.now }
    {
        match self {
            Side::Lent(pattern) => pattern,
            Side::Made(pattern) => pattern,
        }
    }
}

/// An inclusion that is needed: the interface of its patterns, if it is one, and the patterns.
#[derive(Drop)]
pub struct Inclusion<'a> {
    pub interface: Option<u32>,
    pub left: Side<'a>,
    pub right: &'a Pattern,
}

fn of_two(first: u32, second: u32) -> Option<u32>
    ensures { result ≡ same_interface first second }
{
    if first == second { Some(first) } else { None }
}

fn of_three(first: u32, second: u32, third: u32) -> Option<u32>
    ensures { result ≡ one_interface first second third }
{
    if first == third && second == third {
        Some(third)
    } else {
        None
    }
}

fn lies_in<'a>(interface: Option<u32>, left: &'a Pattern, right: &'a Pattern) -> Inclusion<'a>
    ensures { inclusion_view result ≡ inclusion interface (pattern_view left.now) (pattern_view right.now) }
{
    Inclusion {
        interface,
        left: Side::Lent(left),
        right,
    }
}

/// What is needed for the one type to fit the other: more may be sent than is needed, and less received than is allowed.
fn fit<'a>(given: &'a MailboxType, asked: &'a MailboxType) -> Inclusion<'a>
    ensures { inclusion_view result ≡ fit_inclusion (type_view given.now) (type_view asked.now) }
{
    let interface = of_two(given.interface, asked.interface);
    match asked.polarity {
        Polarity::Sending => lies_in(interface, &asked.pattern, &given.pattern),
        Polarity::Receiving => lies_in(interface, &given.pattern, &asked.pattern),
    }
}

/// That the product of the first two lies in the third.
fn both_lie_in<'a>(
    alloc: Global,
    interface: Option<u32>,
    first: &Pattern,
    second: &Pattern,
    right: &'a Pattern,
) -> Result<Option<Inclusion<'a>>, AllocError>
    ensures { IfOk result (λ o. listed (option_map inclusion_view o)
        ≡ inclusion interface (prod_of (pattern_view first.now) (pattern_view second.now)) (pattern_view right.now) ∷ []) }
{
    let first = first.copy()?;
    let second = second.copy()?;
    let left = product(alloc, first, second)?;
    Ok(Some(Inclusion {
        interface,
        left: Side::Made(left),
        right,
    }))
}

/// What is needed for the types in the bound part and in the body of a let to join to the given one.
fn join<'a>(
    alloc: Global,
    bound: &'a MailboxType,
    body: &'a MailboxType,
    given: &'a MailboxType,
) -> Result<Option<Inclusion<'a>>, AllocError>
    ensures { IfOk result (λ o. listed (option_map inclusion_view o)
        ≡ join_inclusions (type_view bound.now) (type_view body.now) (type_view given.now)) }
{
    let interface = of_three(bound.interface, body.interface, given.interface);
    match (bound.polarity, body.polarity, given.polarity) {
        (Polarity::Sending, Polarity::Sending, Polarity::Sending) => both_lie_in(
            alloc,
            interface,
            &bound.pattern,
            &body.pattern,
            &given.pattern,
        ),
        (Polarity::Sending, Polarity::Receiving, Polarity::Receiving) => both_lie_in(
            alloc,
            interface,
            &bound.pattern,
            &given.pattern,
            &body.pattern,
        ),
        (Polarity::Receiving, Polarity::Sending, Polarity::Receiving) => both_lie_in(
            alloc,
            interface,
            &body.pattern,
            &given.pattern,
            &bound.pattern,
        ),
        _ => Ok(None),
    }
}

fn passed<'a>(
    given: &'a Option<MailboxType>,
    asked: &'a Option<MailboxType>,
) -> Option<Inclusion<'a>>
    ensures { listed (option_map inclusion_view result)
        ≡ inclusions_of (Pass (option_map type_view given.now) (option_map type_view asked.now)) }
{
    match given {
        None => None,
        Some(given) => match asked {
            None => None,
            Some(asked) => Some(fit(given, asked)),
        },
    }
}

/// A given type that is divided.
fn divided<'a>(
    alloc: Global,
    given: &'a MailboxType,
    bound: Option<&'a MailboxType>,
    body: Option<&'a MailboxType>,
) -> Result<Option<Inclusion<'a>>, AllocError>
    ensures { IfOk result (λ o. listed (option_map inclusion_view o)
        ≡ inclusions_of (Divide (Some (type_view given.now)) (option_map type_view (option_copied bound.entry))
        (option_map type_view (option_copied body.entry)))) }
{
    match bound {
        None => match body {
            None => Ok(None),
            Some(body) => Ok(Some(fit(given, body))),
        },
        Some(bound) => match body {
            None => Ok(Some(fit(given, bound))),
            Some(body) => join(alloc, bound, body, given),
        },
    }
}

/// Whether the patterns are the same, as they are written.
#[inline(always)]
fn is_alike(left: &Pattern, right: &Pattern) -> bool
    ensures { result ≡ pat_eq (pattern_view left.now) (pattern_view right.now) }
{
    match left {
        Pattern::One => right.is_one(),
        _ => same_pattern(left, right),
    }
}

/// An inclusion of a pattern of the interface in itself.
#[derive(Clone, Copy)]
pub struct Reflexive<'a> {
    pub interface: u32,
    pub pattern: &'a Pattern,
}

/// What is needed for the one type to fit the other, where that is the inclusion of a pattern in itself.
#[inline(always)]
fn alike<'a>(given: &'a MailboxType, asked: &'a MailboxType) -> Option<Reflexive<'a>>
    ensures { IfSome result (λ own. reflexive_view own ≡ fit_inclusion (type_view given.now) (type_view asked.now)) }
{
    if given.interface == asked.interface && is_alike(&given.pattern, &asked.pattern) {
        Some(Reflexive {
            interface: given.interface,
            pattern: &given.pattern,
        })
    } else {
        None
    }
}

/// The inclusion that the demand needs, where that is the inclusion of a pattern in itself. Most are: nothing is made for these.
#[inline(always)]
pub fn reflexive_of<'a>(demand: &'a Demand<'a>) -> Option<Reflexive<'a>>
    ensures { IfSome result (λ own. reflexive_view own ∷ [] ≡ inclusions_of (demand_view demand.now)) }
{
    match demand {
        Demand::Pass {
            given: Some(given),
            asked: Some(asked),
        } => alike(given, asked),
        Demand::Divide {
            given: Some(given),
            bound: None,
            body: Some(body),
        } => alike(given, body),
        Demand::Divide {
            given: Some(given),
            bound: Some(bound),
            body: None,
        } => alike(given, bound),
        _ => None,
    }
}

/// The inclusion that the demand needs, if it needs one.
pub fn inclusion_of<'a>(
    alloc: Global,
    demand: &'a Demand<'a>,
) -> Result<Option<Inclusion<'a>>, AllocError>
    ensures { IfOk result (λ o. listed (option_map inclusion_view o) ≡ inclusions_of (demand_view demand.now)) }
{
    match demand {
        Demand::Pass { given, asked } => Ok(passed(given, asked)),
        Demand::Divide { given, bound, body } => match given {
            None => Ok(None),
            Some(given) => divided(alloc, given, *bound, *body),
        },
        Demand::There { given: _, asked: _ } | Demand::Name { bound: _, body: _ } => Ok(None),
    }
}
