// Certificates of all nodes.
ghost use Rattle.std.specs.Prelude.{◌≡◌, ◌<◌, length, map, Some, IsTrue, IfOk, OnOk};
ghost use Rattle.pat_semantics_spec.specs.Programs.{node_at, function_at};
ghost use Rattle.pat_semantics_spec.specs.WellFormed.{WellFormed};
ghost use Rattle.pat_inclusion_spec.specs.Values.{values_fit};
ghost use Rattle.pat_derivation_spec.specs.Derivations.{line_at, scope_of};
ghost use Rattle.pat_solve_spec.specs.Derived.{AreCertsFor, needed_at};
ghost use Rattle.pat_core.specs.Views.{node_view, function_view, program_view};
ghost use Rattle.pat_derivations.specs.Views.{certs_view, line_view, derivation_view};
ghost use Rattle.pat_obligations.specs.Views.{signature_view};
ghost use Rattle.pat_obligations.specs.of_terms.Opened.{opened_from};
ghost use Rattle.pat_solve_bounds.specs.results.Views.{forms_of};
ghost use Rattle.pat_solve_derivation.specs.certificates.ClosedValues.{AreClosed};
ghost use Rattle.pat_solve_derivation.specs.certificates.Making.{scope_in, forms_in, IsSolved};
ghost use Rattle.pat_solve_derivation.specs.Made.{IsBare, HasCerts, AreMade};

use crate::certificates::{Solved, certificates, is_let_apart, unmade_forms};
use pat_certificate_checks::plain_values;
use pat_core::{Function, Node, Program};
use pat_derivations::{Cert, Derivation, DerivedNode};
use pat_linear::LinearSet;
use pat_obligations::{Signature, demands, signatures};
use pat_sequences::Sequence;
use pat_solve_laws::derived_laws;
use std::alloc::{AllocError, Global};

/// The certificates of a node of this function. The derivation has a line without certificates for each node.
fn certs_at(
    alloc: Global,
    solved: &Solved,
    closed: &mut Sequence<Option<Sequence<LinearSet>>>,
    signatures: &[Signature],
    number: usize,
    node: &Node,
    function: &Function,
    line: &DerivedNode,
) -> Result<Sequence<Cert>, AllocError>
    requires solved { IsSolved solved.now }
    requires closed { AreClosed (scope_in solved.now) closed.old }
    requires bare { IsBare (program_view solved.now.program.now) (forms_in solved.now) (derivation_view solved.now.derivation.now) }
    requires signatures { map signature_view signatures.now ≡ opened_from 1 (program_view solved.now.program.now).functions }
    requires node { node_at (program_view solved.now.program.now) number ≡ Some (node_view node.now) }
    requires function { function_at (program_view solved.now.program.now) node.now.function ≡ Some (function_view function.now) }
    requires line { line_at (derivation_view solved.now.derivation.now) number ≡ Some (line_view line.now) }
    ensures certs { IfOk result (λ certs. AreCertsFor (scope_in solved.now) (forms_in solved.now)
        (needed_at (program_view solved.now.program.now) (derivation_view solved.now.derivation.now).vars number (node_view node.now)
        (function_view function.now)) (certs_view certs)) }
    ensures closed { OnOk result (AreClosed (scope_in solved.now) closed.new) }
{
    derived_laws();
    if is_let_apart(solved.derivation, number, node, function) {
        return Ok(Sequence::new(alloc));
    }
    let all = demands(
        alloc,
        solved.program,
        solved.derivation,
        signatures,
        number,
        node,
        function,
        line,
    )?;
    certificates(alloc, solved, closed, all.as_slice())
}

fn node_of(program: &Program, number: usize) -> &Node
    requires { number < length program.now.nodes }
    ensures { node_at (program_view program.now) number ≡ Some (node_view result.now) }
{
    &program.nodes.as_slice()[number]
}

fn function_of(program: &Program, number: u32) -> &Function
    requires { number < length program.now.functions }
    ensures { function_at (program_view program.now) number ≡ Some (function_view result.now) }
{
    &program.functions.as_slice()[number as usize]
}

fn line_of(derivation: &Derivation, number: usize) -> &DerivedNode
    requires { number < length derivation.now.nodes }
    ensures { line_at (derivation_view derivation.now) number ≡ Some (line_view result.now) }
{
    &derivation.nodes.as_slice()[number]
}

/// The certificates of the node with this number.
fn certs_of(
    alloc: Global,
    solved: &Solved,
    closed: &mut Sequence<Option<Sequence<LinearSet>>>,
    signatures: &[Signature],
    number: usize,
) -> Result<Sequence<Cert>, AllocError>
    requires solved { IsSolved solved.now }
    requires closed { AreClosed (scope_in solved.now) closed.old }
    requires bare { IsBare (program_view solved.now.program.now) (forms_in solved.now) (derivation_view solved.now.derivation.now) }
    requires signatures { map signature_view signatures.now ≡ opened_from 1 (program_view solved.now.program.now).functions }
    requires within { number < length solved.now.program.now.nodes }
    ensures certs { IfOk result (λ certs. HasCerts (program_view solved.now.program.now) (derivation_view solved.now.derivation.now).vars
        (forms_in solved.now) number (certs_view certs)) }
    ensures closed { OnOk result (AreClosed (scope_in solved.now) closed.new) }
{
    let node = node_of(solved.program, number);
    let line = line_of(solved.derivation, number);
    let function = function_of(solved.program, node.function);
    certs_at(
        alloc, solved, closed, signatures, number, node, function, line,
    )
}

/// The certificates of each node in turn.
fn certs_of_each(
    alloc: Global,
    solved: &Solved,
    closed: &mut Sequence<Option<Sequence<LinearSet>>>,
    signatures: &[Signature],
) -> Result<Sequence<Sequence<Cert>>, AllocError>
    requires solved { IsSolved solved.now }
    requires closed { AreClosed (scope_in solved.now) closed.old }
    requires bare { IsBare (program_view solved.now.program.now) (forms_in solved.now) (derivation_view solved.now.derivation.now) }
    requires signatures { map signature_view signatures.now ≡ opened_from 1 (program_view solved.now.program.now).functions }
    ensures { IfOk result (λ all. AreMade (program_view solved.now.program.now) (derivation_view solved.now.derivation.now).vars
        (forms_in solved.now) (map certs_view all)) }
{
    let mut all = Sequence::new(alloc);
    for number in 0..solved.program.nodes.len() {
        let certs = certs_of(alloc, solved, closed, signatures, number)?;
        all.push(certs)?;
    }
    Ok(all)
}

/// The certificates of each node, for a derivation without them whose values show the constraints.
pub fn all_certs(
    alloc: Global,
    program: &Program,
    derivation: &Derivation,
    bounds: &[Option<u32>],
) -> Result<Sequence<Sequence<Cert>>, AllocError>
    requires well { WellFormed (program_view program.now) }
    requires values { IsTrue (values_fit (scope_of (program_view program.now) (derivation_view derivation.now))) }
    requires bare { IsBare (program_view program.now) (forms_of bounds.now) (derivation_view derivation.now) }
    ensures { IfOk result (λ all. AreMade (program_view program.now) (derivation_view derivation.now).vars (forms_of bounds.now)
        (map certs_view all)) }
{
    let signatures = signatures(alloc, program.functions.as_slice())?;
    let plain = plain_values(alloc, derivation)?;
    let mut closed = unmade_forms(alloc, derivation)?;
    let solved = Solved {
        program,
        derivation,
        bounds,
        plain: plain.as_slice(),
    };
    certs_of_each(alloc, &solved, &mut closed, signatures.as_slice())
}
