// The judge.
ghost use Rattle.std.specs.Prelude.{◌≡◌, option_map, IsTrue, IfOk, IfNone};
ghost use Rattle.pat_semantics_spec.specs.WellFormed.{WellFormed};
ghost use Rattle.pat_type_system_spec.specs.Typings.{IsTypable};
ghost use Rattle.pat_derivation_spec.specs.Rules.{has_values as has_values_of};
ghost use Rattle.pat_derivation_spec.specs.Validity.{first_bad, IsValid};
ghost use Rattle.pat_core.specs.Views.{program_view};
ghost use Rattle.pat_derivations.specs.Views.{derivation_view};
ghost use Rattle.pat_judge.specs.Views.{rejection_view};

use crate::nodes::broken_rule;
use crate::shape::has_values;
use crate::tables::tables_of;
use pat_core::Program;
use pat_derivation_laws::{first_bad_laws, validity_laws};
use pat_derivation_rules::Rule;
use pat_derivations::Derivation;
use std::alloc::{AllocError, Global};

/// Why a derivation isn't valid: the first bad number, and the first rule that is broken there.
#[derive(Clone, Copy, Debug, PartialEq, Eq)]
pub struct Rejection {
    pub node: u32,
    pub rule: Rule,
}

/// Whether the derivation of the well-formed program is valid: nothing where it is, and otherwise the first bad number with its
/// first broken rule. Where it is valid the program can be typed.
pub fn judge(
    alloc: Global,
    program: &Program,
    derivation: &Derivation,
) -> Result<Option<Rejection>, AllocError>
    requires { WellFormed (program_view program.now) }
    ensures exact { IfOk result (λ o. option_map rejection_view o ≡ first_bad (program_view program.now) (derivation_view derivation.now)) }
    ensures valid { IfOk result (λ o. IfNone o (IsValid (program_view program.now) (derivation_view derivation.now))) }
    ensures typable { IfOk result (λ o. IfNone o (IsTypable (program_view program.now))) }
{
    validity_laws();
    first_bad_laws();
    judged(alloc, program, derivation)
}

#[tactic(auto, using(crate::proofs::FirstBad::without_values))]
fn judged(
    alloc: Global,
    program: &Program,
    derivation: &Derivation,
) -> Result<Option<Rejection>, AllocError>
    requires { WellFormed (program_view program.now) }
    ensures { IfOk result (λ o. option_map rejection_view o ≡ first_bad (program_view program.now) (derivation_view derivation.now)) }
{
    if has_values(program, derivation) {
        first_of(alloc, program, derivation)
    } else {
        Ok(Some(Rejection {
            node: 0,
            rule: Rule::Shape,
        }))
    }
}

/// The first bad number, where the variables have values.
#[tactic(auto, using(crate::proofs::FirstBad::found_here, crate::proofs::FirstBad::found_later, crate::proofs::FirstBad::found_none, crate::proofs::FirstBad::first_is, crate::proofs::Scoped::scoped_at_start))]
fn first_of(
    alloc: Global,
    program: &Program,
    derivation: &Derivation,
) -> Result<Option<Rejection>, AllocError>
    requires well { WellFormed (program_view program.now) }
    requires values { IsTrue (has_values_of (program_view program.now) (derivation_view derivation.now)) }
    ensures { IfOk result (λ o. option_map rejection_view o ≡ first_bad (program_view program.now) (derivation_view derivation.now)) }
{
    let tables = tables_of(alloc, program, derivation)?;
    for number in 0..program.nodes.len().max(derivation.nodes.len()) {
        if number > u32::MAX as usize {
            return Err(AllocError);
        }
        match broken_rule(alloc, program, derivation, &tables, number)? {
            None => {}
            Some(rule) => {
                return Ok(Some(Rejection {
                    node: number as u32,
                    rule,
                }));
            }
        }
    }
    Ok(None)
}
