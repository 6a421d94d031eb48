// What is not passed on may be dropped.
ghost use Rattle.std.specs.Prelude.{◌≡◌, None, option_map, option_copied};
ghost use Rattle.std.specs.List.{list_all};
ghost use Rattle.pat_patterns.specs.Views.{pattern_view};
ghost use Rattle.pat_primitives.specs.Views.{polarity_view};
ghost use Rattle.pat_core.specs.Views.{program_view};
ghost use Rattle.pat_types.specs.Views.{type_view, result_view};
ghost use Rattle.pat_derivation_spec.specs.Derivations.{scope_of};
ghost use Rattle.pat_derivation_spec.specs.Demands.{Pass, drops_as as drops_as_of, term_may_drop as term_may_drop_of, is_dropped_well};
ghost use Rattle.pat_certificate_values.specs.Views.{derivation_view};
ghost use Rattle.pat_obligations.specs.Views.{demand_view, demands_view};
ghost use Rattle.pat_certificate_values.specs.Tested.{IsTested};

use pat_certificate_values::{Derivation, Tests, has_empty_word, is_formed};
use pat_core::Program;
use pat_obligations::Demand;
use pat_patterns::Pattern;
use pat_primitives::Polarity;
use pat_types::{MailboxType, TypeOf};

/// Whether of each demand what is not passed on may be dropped: it is a sending type, and nothing need be sent.
pub fn drops_well(
    program: &Program,
    derivation: &Derivation,
    tests: &Tests,
    demands: &[Demand],
) -> bool
    requires { IsTested (scope_of (program_view program.now) (derivation_view derivation.now)) tests.now }
    ensures { result
        ≡ list_all (is_dropped_well (scope_of (program_view program.now) (derivation_view derivation.now)))
        (demands_view demands.now) }
{
    for demand in demands {
        if !dropped_well(program, derivation, tests, demand) {
            return false;
        }
    }
    true
}

fn dropped_well(program: &Program, derivation: &Derivation, tests: &Tests, demand: &Demand) -> bool
    requires { IsTested (scope_of (program_view program.now) (derivation_view derivation.now)) tests.now }
    ensures { result ≡ is_dropped_well (scope_of (program_view program.now) (derivation_view derivation.now)) (demand_view demand.now) }
{
    match demand {
        Demand::Pass { given, asked } => {
            asked.is_some() || may_drop(program, derivation, tests, given.as_ref())
        }
        Demand::Divide { given, bound, body } => {
            bound.is_some() || body.is_some() || may_drop(program, derivation, tests, *given)
        }
        Demand::There { .. } => true,
        Demand::Name { bound, body } => {
            body.is_some() || term_may_drop(program, derivation, tests, bound)
        }
    }
}

/// Whether a variable of this type may be dropped, if there is one.
fn may_drop(
    program: &Program,
    derivation: &Derivation,
    tests: &Tests,
    of: Option<&MailboxType>,
) -> bool
    requires { IsTested (scope_of (program_view program.now) (derivation_view derivation.now)) tests.now }
    ensures { result ≡ is_dropped_well (scope_of (program_view program.now) (derivation_view derivation.now))
        (Pass (option_map type_view (option_copied of.entry)) None) }
{
    match of {
        None => true,
        Some(of) => drops_as(
            program,
            derivation,
            tests,
            of.interface,
            of.polarity,
            &of.pattern,
        ),
    }
}

/// Whether a term of this type may be dropped.
fn term_may_drop(program: &Program, derivation: &Derivation, tests: &Tests, of: &TypeOf) -> bool
    requires { IsTested (scope_of (program_view program.now) (derivation_view derivation.now)) tests.now }
    ensures { result ≡ term_may_drop_of (scope_of (program_view program.now) (derivation_view derivation.now)) (result_view of.now) }
{
    match of {
        TypeOf::Base(_) => false,
        TypeOf::Mailbox {
            interface,
            polarity,
            pattern,
        } => drops_as(program, derivation, tests, *interface, *polarity, pattern),
    }
}

fn drops_as(
    program: &Program,
    derivation: &Derivation,
    tests: &Tests,
    interface: u32,
    polarity: Polarity,
    pattern: &Pattern,
) -> bool
    requires { IsTested (scope_of (program_view program.now) (derivation_view derivation.now)) tests.now }
    ensures { result ≡ drops_as_of (scope_of (program_view program.now) (derivation_view derivation.now)) interface (polarity_view polarity)
        (pattern_view pattern.now) }
{
    match polarity {
        Polarity::Sending => {
            is_formed(program, derivation, interface, pattern) && has_empty_word(tests, pattern)
        }
        Polarity::Receiving => false,
    }
}
