// Where the parts of a program stand in its text, and rules that are looked at there.
ghost use Rattle.std.specs.Prelude.{◌≡◌};
ghost use Rattle.pat_infer_spec.specs.Constraints.{AtNode, AtName, unless};
ghost use Rattle.pat_infer_problems.specs.Places.{place_of};
ghost use Rattle.pat_infer_problems.specs.Views.{rule_view};
ghost use Rattle.pat_infer_problems.specs.Results.{Meets};

use crate::error::{InferError, Rule};
use pat_core::Program;
use pat_syntax::Span;

/// Where a node stands; the beginning of the text for a number that no node has.
pub fn node_span(program: &Program, node: u32) -> Span
    ensures { result ≡ place_of program.now (AtNode node) }
{
    match program.nodes.as_slice().get(node as usize) {
        Some(there) => there.span,
        None => Span { from: 0, to: 0 },
    }
}

/// Where a variable's name stands; the beginning of the text for one that isn't there.
pub fn name_span(program: &Program, function: usize, variable: usize) -> Span
    ensures { result ≡ place_of program.now (AtName function variable) }
{
    match program.functions.as_slice().get(function) {
        Some(there) => match there.spans.as_slice().get(variable) {
            Some(span) => *span,
            None => Span { from: 0, to: 0 },
        },
        None => Span { from: 0, to: 0 },
    }
}

/// Refuses unless a rule holds at a node.
pub fn check_node(program: &Program, holds: bool, rule: Rule, node: u32) -> Result<(), InferError>
    ensures { Meets program.now result (unless holds (rule_view rule) (AtNode node)) }
{
    if holds {
        Ok(())
    } else {
        Err(InferError::Untypable {
            span: node_span(program, node),
            rule,
        })
    }
}

/// Refuses unless a rule holds of a name.
pub fn check_name(
    program: &Program,
    holds: bool,
    rule: Rule,
    function: usize,
    variable: usize,
) -> Result<(), InferError>
    ensures { Meets program.now result (unless holds (rule_view rule) (AtName function variable)) }
{
    if holds {
        Ok(())
    } else {
        Err(InferError::Untypable {
            span: name_span(program, function, variable),
            rule,
        })
    }
}
