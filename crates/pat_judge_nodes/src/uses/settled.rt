// Demands that ask nothing, since what is there is passed on as it is.
ghost use Rattle.std.specs.Prelude.{◌≡◌, true, IsTrue};
ghost use Rattle.pat_type_schemes_spec.specs.Values.{is_formed};
ghost use Rattle.pat_patterns.specs.Views.{pattern_view};
ghost use Rattle.pat_core.specs.Views.{program_view};
ghost use Rattle.pat_types.specs.Views.{type_view};
ghost use Rattle.pat_derivation_spec.specs.Derivations.{scope_of};
ghost use Rattle.pat_derivations.specs.Views.{derivation_view};
ghost use Rattle.pat_obligations.specs.Views.{demand_view, demands_view};
ghost use Rattle.pat_judge_nodes.specs.uses.Settled.{IsKept, IsSettled, FollowSettled};

use crate::uses::uses::fits;
use pat_certificate_values::are_same_and_formed;
use pat_core::Program;
use pat_derivations::Derivation;
use pat_obligations::Demand;
use pat_patterns::Pattern;
use pat_types::MailboxType;

/// The demands from the first one on that may ask something.
pub fn from_open<'a, 'b>(
    program: &Program,
    derivation: &Derivation,
    demands: &'a [Demand<'b>],
) -> &'a [Demand<'b>]
    ensures { FollowSettled (scope_of (program_view program.now) (derivation_view derivation.now)) (demands_view result.now)
        (demands_view demands.now) }
{
    let mut place = 0;
    while place < demands.len() && is_settled(program, derivation, &demands[place]) {
        place += 1;
    }
    &demands[place..]
}

/// Whether one part alone has what is there, and has it as it is.
fn is_settled(program: &Program, derivation: &Derivation, demand: &Demand) -> bool
    ensures { IsTrue result → IsSettled (scope_of (program_view program.now) (derivation_view derivation.now)) (demand_view demand.now) }
{
    match demand {
        Demand::Pass {
            given: Some(given),
            asked: Some(asked),
        } => is_kept(program, derivation, given, asked),
        Demand::Divide {
            given: Some(given),
            bound: None,
            body: Some(asked),
        } => is_kept(program, derivation, given, asked),
        Demand::Divide {
            given: Some(given),
            bound: Some(asked),
            body: None,
        } => is_kept(program, derivation, given, asked),
        _ => false,
    }
}

/// Whether the second type is the first but for a usage that fits, and its pattern is one of its interface.
#[inline(always)]
fn is_kept(
    program: &Program,
    derivation: &Derivation,
    given: &MailboxType,
    asked: &MailboxType,
) -> bool
    ensures { IsTrue result → IsKept (scope_of (program_view program.now) (derivation_view derivation.now)) (type_view given.now)
        (type_view asked.now) }
{
    fits(given, asked)
        && given.interface == asked.interface
        && are_alike(
            program,
            derivation,
            given.interface,
            &given.pattern,
            &asked.pattern,
        )
}

/// Whether the patterns are the same one of the interface. Many are 1, and nothing is looked up for these.
#[inline(always)]
fn are_alike(
    program: &Program,
    derivation: &Derivation,
    interface: u32,
    given: &Pattern,
    asked: &Pattern,
) -> bool
    ensures same { IsTrue result → pattern_view given.now ≡ pattern_view asked.now }
    ensures formed { IsTrue result → is_formed (scope_of (program_view program.now) (derivation_view derivation.now)) interface
        (pattern_view given.now) ≡ true }
{
    match given {
        Pattern::One => asked.is_one(),
        _ => are_same_and_formed(program, derivation, interface, given, asked),
    }
}
