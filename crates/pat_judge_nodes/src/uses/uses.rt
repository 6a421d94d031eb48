// What is used is there, and is used as it may be.
ghost use Rattle.std.specs.Prelude.{◌≡◌, option_map, option_copied};
ghost use Rattle.std.specs.List.{list_all};
ghost use Rattle.pat_primitives.specs.Views.{polarity_view};
ghost use Rattle.pat_types.specs.Views.{type_view, result_view};
ghost use Rattle.pat_derivation_spec.specs.Demands.{Pass, Divide, Name, uses_fit, polarities_join, uses_join, as_term, is_used_well};
ghost use Rattle.pat_derivation_spec.specs.Same.{is_same_type};
ghost use Rattle.pat_obligations.specs.Views.{demand_view, demands_view};

use pat_certificate_values::{is_second, same_pattern, same_polarity, usage_fits};
use pat_obligations::Demand;
use pat_primitives::Polarity;
use pat_types::{MailboxType, TypeOf};

/// Whether of each demand what is used is there, and is used as it may be.
pub fn uses_well(demands: &[Demand]) -> bool
    ensures { result ≡ list_all is_used_well (demands_view demands.now) }
{
    for demand in demands {
        if !used_well(demand) {
            return false;
        }
    }
    true
}

fn used_well(demand: &Demand) -> bool
    ensures { result ≡ is_used_well (demand_view demand.now) }
{
    match demand {
        Demand::Pass { given, asked } => passed_well(given, asked),
        Demand::Divide { given, bound, body } => divided_well(*given, *bound, *body),
        Demand::There { given, asked } => given.is_some() || asked.is_none(),
        Demand::Name { bound, body } => named_well(bound, *body),
    }
}

fn passed_well(given: &Option<MailboxType>, asked: &Option<MailboxType>) -> bool
    ensures { result ≡ is_used_well (Pass (option_map type_view given.now) (option_map type_view asked.now)) }
{
    match asked {
        None => true,
        Some(asked) => match given {
            None => false,
            Some(given) => fits(given, asked),
        },
    }
}

fn divided_well(
    given: Option<&MailboxType>,
    bound: Option<&MailboxType>,
    body: Option<&MailboxType>,
) -> bool
    ensures { result ≡ is_used_well (Divide (option_map type_view (option_copied given.entry))
        (option_map type_view (option_copied bound.entry)) (option_map type_view (option_copied body.entry))) }
{
    match given {
        None => bound.is_none() && body.is_none(),
        Some(given) => match bound {
            None => match body {
                None => true,
                Some(body) => fits(given, body),
            },
            Some(bound) => match body {
                None => fits(given, bound),
                Some(body) => join(bound, body, given),
            },
        },
    }
}

/// Whether the name of a let has in the body the type that it is bound with.
fn named_well(bound: &TypeOf, body: Option<&MailboxType>) -> bool
    ensures { result ≡ is_used_well (Name (result_view bound.now) (option_map type_view (option_copied body.entry))) }
{
    match body {
        None => true,
        Some(body) => is_of_type(bound, body),
    }
}

/// Whether the type of the variable is that of the term, but for its usage.
fn is_of_type(term: &TypeOf, variable: &MailboxType) -> bool
    ensures { result ≡ is_same_type (result_view term.now) (as_term (type_view variable.now)) }
{
    match term {
        TypeOf::Base(_) => false,
        TypeOf::Mailbox {
            interface,
            polarity,
            pattern,
        } => {
            *interface == variable.interface
                && same_polarity(*polarity, variable.polarity)
                && same_pattern(pattern, &variable.pattern)
        }
    }
}

/// Whether polarity and usage fit.
pub fn fits(given: &MailboxType, asked: &MailboxType) -> bool
    ensures { result ≡ uses_fit (type_view given.now) (type_view asked.now) }
{
    same_polarity(given.polarity, asked.polarity) && usage_fits(given.usage, asked.usage)
}

/// Whether the uses of the bound part and of the body of a let join to one of what is there.
fn join(bound: &MailboxType, body: &MailboxType, given: &MailboxType) -> bool
    ensures { result ≡ uses_join (type_view bound.now) (type_view body.now) (type_view given.now) }
{
    is_second(bound.usage)
        && usage_fits(given.usage, body.usage)
        && polarities(bound.polarity, body.polarity, given.polarity)
}

fn polarities(bound: Polarity, body: Polarity, given: Polarity) -> bool
    ensures { result ≡ polarities_join (polarity_view bound) (polarity_view body) (polarity_view given) }
{
    match bound {
        Polarity::Sending => same_polarity(body, given),
        Polarity::Receiving => {
            matches!(body, Polarity::Sending) && matches!(given, Polarity::Receiving)
        }
    }
}
