// The demands of a node as a list.
ghost use Rattle.std.specs.Prelude.{◌≡◌, ◌++◌, Some, map, IfOk, OnOk};
ghost use Rattle.pat_semantics_spec.specs.Programs.{function_at};
ghost use Rattle.pat_core.specs.Views.{node_view, function_view, program_view};
ghost use Rattle.pat_derivation_spec.specs.Conditions.{demands as demands_at};
ghost use Rattle.pat_derivation_spec.specs.Truth.{place};
ghost use Rattle.pat_derivations.specs.Views.{line_view, derivation_view};
ghost use Rattle.pat_obligations.specs.Views.{demands_view, signature_view};
ghost use Rattle.pat_obligations.specs.of_terms.First.{listed_at_first};
ghost use Rattle.pat_obligations.specs.of_terms.Opened.{opened_from};

use crate::of_terms::dispatch::term;
use crate::of_terms::terms::first;
use crate::{Demand, Signature, signature_of};
use pat_core::{Function, Node, Program};
use pat_derivations::{Derivation, DerivedNode};
use pat_sequences::Sequence;
use std::alloc::{AllocError, Global};

/// The demands of a node of this function, in order: at the function's first node those for its parameters, and then those of
/// the node's term. The signatures are those of the program's functions. Types that lets divide are lent by the lines.
pub fn demands<'a>(
    alloc: Global,
    program: &Program,
    derivation: &'a Derivation,
    signatures: &[Signature],
    number: usize,
    node: &Node,
    function: &Function,
    line: &'a DerivedNode,
) -> Result<Sequence<Demand<'a>>, AllocError>
    requires signatures { map signature_view signatures.now ≡ opened_from 1 (program_view program.now).functions }
    requires function { function_at (program_view program.now) node.now.function ≡ Some (function_view function.now) }
    ensures { IfOk result (λ all. demands_view all
        ≡ demands_at (program_view program.now) (derivation_view derivation.now)
        (place number (node_view node.now) (function_view function.now) (line_view line.now))) }
{
    let mut all = Sequence::new(alloc);
    at_first(alloc, signatures, number, node, function, line, &mut all)?;
    term(
        alloc,
        program,
        derivation,
        signatures,
        function.vars.as_slice(),
        &line.of,
        &node.core,
        &mut all,
    )?;
    Ok(all)
}

/// What a function's signature asks for, where the node is the function's first.
fn at_first(
    alloc: Global,
    signatures: &[Signature],
    number: usize,
    node: &Node,
    function: &Function,
    line: &DerivedNode,
    out: &mut Sequence<Demand>,
) -> Result<(), AllocError>
    ensures { OnOk result (demands_view out.new ≡ demands_view out.old
        ++ listed_at_first (map signature_view signatures.now)
        (place number (node_view node.now) (function_view function.now) (line_view line.now))) }
{
    if function.body as usize != number {
        return Ok(());
    }
    match signature_of(signatures, node.function) {
        None => Ok(()),
        Some(signature) => first(
            alloc,
            function.params.len(),
            signature.params.as_slice(),
            line.of.env.as_slice(),
            out,
        ),
    }
}
