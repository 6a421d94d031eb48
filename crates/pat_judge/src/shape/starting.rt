// Whether the variables have values.
ghost use Rattle.std.specs.Prelude.{◌≡◌, ◌&&◌, ◌+◌, ◌<◌, ◌≤◌, ◌↔◌, map, IfSome, IfNone, IsTrue};
ghost use Rattle.pat_semantics_spec.specs.WellFormed.{WellFormed};
ghost use Rattle.pat_type_schemes_spec.specs.Signatures.{omits};
ghost use Rattle.pat_derivation_spec.specs.Rules.{has_values as has_values_of};
ghost use Rattle.pat_core.specs.Views.{sort_view, function_view, program_view};
ghost use Rattle.pat_derivations.specs.Views.{derivation_view};
ghost use Rattle.pat_judge.specs.shape.Counts.{omit_all, omit_in, omit_in_all};

use pat_certificate_values::values_fit;
use pat_core::{Function, Program, Sort};
use pat_derivations::Derivation;

/// How many patterns a type leaves out: one, or none.
fn omitted(sort: &Sort) -> usize
    ensures { result ≡ omits (sort_view sort.now) }
{
    match sort {
        Sort::Base(_) => 0,
        Sort::Mailbox(mailbox) => match &mailbox.pattern {
            None => 1,
            Some(_) => 0,
        },
    }
}

/// What is left of `left` once one is taken for each pattern that the types leave out; nothing, if there are too few.
fn left_after(left: usize, sorts: &[Sort]) -> Option<usize>
    ensures some { IfSome result (λ rest. rest + omit_all (map sort_view sorts.now) ≡ left) }
    ensures none { IfNone result (left < omit_all (map sort_view sorts.now)) }
{
    let mut rest = left;
    for sort in sorts {
        rest = match rest.checked_sub(omitted(sort)) {
            None => return None,
            Some(next) => next,
        };
    }
    Some(rest)
}

/// The same for a function.
fn left_after_function(left: usize, function: &Function) -> Option<usize>
    ensures some { IfSome result (λ rest. rest + omit_in (function_view function.now) ≡ left) }
    ensures none { IfNone result (left < omit_in (function_view function.now)) }
{
    match left_after(left, function.params.as_slice()) {
        None => None,
        Some(rest) => rest.checked_sub(omitted(&function.result)),
    }
}

/// Whether there is one for each pattern that the signatures leave out.
fn are_enough(count: usize, functions: &[Function]) -> bool
    ensures { IsTrue result ↔ (omit_in_all (map function_view functions.now) ≤ count) }
{
    let mut rest = count;
    for function in functions {
        rest = match left_after_function(rest, function) {
            None => return false,
            Some(next) => next,
        };
    }
    true
}

/// Whether both hold.
pub fn both(first: bool, second: bool) -> bool
    ensures { result ≡ (first && second) }
{
    first && second
}

/// Whether each variable of a signature has a value, and each value is one that its variable may have.
pub fn has_values(program: &Program, derivation: &Derivation) -> bool
    requires { WellFormed (program_view program.now) }
    ensures { result ≡ has_values_of (program_view program.now) (derivation_view derivation.now) }
{
    let enough = are_enough(derivation.vars.len(), program.functions.as_slice());
    let fit = values_fit(program, derivation);
    both(enough, fit)
}
