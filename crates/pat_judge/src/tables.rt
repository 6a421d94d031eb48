// What is made once for all nodes.
ghost use Rattle.std.specs.Prelude.{◌≡◌, IsTrue, IfOk};
ghost use Rattle.pat_inclusion_spec.specs.Values.{values_fit};
ghost use Rattle.pat_derivation_spec.specs.Derivations.{scope_of};
ghost use Rattle.pat_core.specs.Views.{program_view};
ghost use Rattle.pat_derivations.specs.Views.{derivation_view};
ghost use Rattle.pat_judge.specs.Views.{AreTables};

use pat_certificate_checks::plain_values;
use pat_certificate_values::{Tests, tests_of};
use pat_core::Program;
use pat_derivations::Derivation;
use pat_judge_nodes::{Signature, nodes_above, signatures};
use pat_patterns::Pattern;
use pat_sequences::Sequence;
use std::alloc::{AllocError, Global};

/// The types of all signatures, the node above each node, the tests of the values of all variables, and those values that are patterns.
#[derive(Drop)]
pub struct Tables {
    pub signatures: Sequence<Signature>,
    pub above: Sequence<Option<usize>>,
    pub tests: Tests,
    pub plain: Sequence<Pattern>,
}

/// The tables of a program and a derivation whose values are ones that their variables may have.
pub fn tables_of(
    alloc: Global,
    program: &Program,
    derivation: &Derivation,
) -> Result<Tables, AllocError>
    requires { IsTrue (values_fit (scope_of (program_view program.now) (derivation_view derivation.now))) }
    ensures { IfOk result (AreTables (program_view program.now) (derivation_view derivation.now)) }
{
    let signatures = signatures(alloc, program.functions.as_slice())?;
    let above = nodes_above(alloc, program)?;
    let tests = tests_of(alloc, program, derivation)?;
    let plain = plain_values(alloc, derivation)?;
    Ok(Tables {
        signatures,
        above,
        tests,
        plain,
    })
}
