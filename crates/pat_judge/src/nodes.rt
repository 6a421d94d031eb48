// The first broken rule of a node.
ghost use Rattle.std.specs.Prelude.{◌≡◌, Some, option_map, option_copied, IsTrue, IfOk};
ghost use Rattle.pat_semantics_spec.specs.Programs.{node_at, function_at};
ghost use Rattle.pat_semantics_spec.specs.WellFormed.{WellFormed};
ghost use Rattle.pat_derivation_spec.specs.Derivations.{line_at};
ghost use Rattle.pat_derivation_spec.specs.Truth.{place};
ghost use Rattle.pat_derivation_spec.specs.Conditions.{demands as demands_at};
ghost use Rattle.pat_derivation_spec.specs.Rules.{has_values};
ghost use Rattle.pat_derivation_spec.specs.Validity.{broken_at, broken_in, broken_rule as broken_rule_of};
ghost use Rattle.pat_core.specs.Views.{node_view, function_view, program_view};
ghost use Rattle.pat_derivations.specs.Views.{line_view, derivation_view};
ghost use Rattle.pat_judge_nodes.specs.scopes.Upwards.{AreScopedBefore};
ghost use Rattle.pat_judge_nodes.specs.uses.Views.{demands_view};
ghost use Rattle.pat_judge.specs.Views.{rule_view, AreTables, after_alias};

use crate::shape::{guard_covers, has_shape, has_words, tested_needs};
use crate::tables::Tables;
use pat_certificate_checks::are_shown;
use pat_core::{Function, Node, Program};
use pat_derivation_rules::Rule;
use pat_derivations::{Derivation, DerivedNode};
use pat_judge_nodes::{
    Demand, demands, drops_well, from_open, has_no_alias, names_in_scope, payloads_stand_apart,
    uses_well,
};
use std::alloc::{AllocError, Global};

/// The first broken rule of those behind Alias, where the node has these demands.
#[tactic(auto, using(crate::proofs::Breaking::breaks_use, crate::proofs::Breaking::breaks_drop, crate::proofs::Breaking::breaks_payload, crate::proofs::Breaking::breaks_covers, crate::proofs::Breaking::breaks_cert, crate::proofs::Breaking::breaks_none, crate::proofs::Settled::used_alike, crate::proofs::Settled::dropped_alike))]
fn broken_by(
    alloc: Global,
    program: &Program,
    derivation: &Derivation,
    tables: &Tables,
    demands: &[Demand],
    number: usize,
    node: &Node,
    function: &Function,
    line: &DerivedNode,
) -> Result<Option<Rule>, AllocError>
    requires well { WellFormed (program_view program.now) }
    requires values { IsTrue (has_values (program_view program.now) (derivation_view derivation.now)) }
    requires tables { AreTables (program_view program.now) (derivation_view derivation.now) tables.now }
    requires demands { demands_view demands.now
        ≡ demands_at (program_view program.now) (derivation_view derivation.now)
        (place number (node_view node.now) (function_view function.now) (line_view line.now)) }
    ensures { IfOk result (λ o. option_map rule_view o
        ≡ after_alias (program_view program.now) (derivation_view derivation.now)
        (place number (node_view node.now) (function_view function.now) (line_view line.now))) }
{
    let open = from_open(program, derivation, demands);
    if !uses_well(open) {
        return Ok(Some(Rule::Use));
    }
    if !drops_well(program, derivation, &tables.tests, open) {
        return Ok(Some(Rule::Drop));
    }
    if !payloads_stand_apart(program, derivation, number, node, function, line) {
        return Ok(Some(Rule::Payload));
    }
    if !guard_covers(node) {
        return Ok(Some(Rule::Covers));
    }
    let plain = tables.plain.as_slice();
    let certs = line.certs.as_slice();
    if are_shown(alloc, program, derivation, plain, open, certs)? {
        Ok(None)
    } else {
        Ok(Some(Rule::Cert))
    }
}

/// The first broken rule of a node that is there with a line.
#[tactic(auto, using(crate::proofs::Breaking::breaks_shape, crate::proofs::Breaking::breaks_empty, crate::proofs::Breaking::breaks_alias, crate::proofs::Breaking::goes_on))]
fn broken_in_place(
    alloc: Global,
    program: &Program,
    derivation: &Derivation,
    tables: &Tables,
    number: usize,
    node: &Node,
    function: &Function,
    line: &DerivedNode,
) -> Result<Option<Rule>, AllocError>
    requires well { WellFormed (program_view program.now) }
    requires values { IsTrue (has_values (program_view program.now) (derivation_view derivation.now)) }
    requires tables { AreTables (program_view program.now) (derivation_view derivation.now) tables.now }
    requires before { AreScopedBefore (program_view program.now) (derivation_view derivation.now) number }
    requires node { node_at (program_view program.now) number ≡ Some (node_view node.now) }
    requires function { function_at (program_view program.now) node.now.function ≡ Some (function_view function.now) }
    ensures { IfOk result (λ o. option_map rule_view o
        ≡ broken_at (program_view program.now) (derivation_view derivation.now)
        (place number (node_view node.now) (function_view function.now) (line_view line.now))) }
{
    let signatures = tables.signatures.as_slice();
    let above = tables.above.as_slice();
    let env = line.of.env.as_slice();
    let scoped = names_in_scope(above, program, derivation, number, env);
    let needs = tested_needs(program, derivation, &tables.tests, function, env);
    if !has_shape(
        program,
        derivation,
        signatures,
        scoped,
        needs.are_well,
        number,
        node,
        function,
        line,
    ) {
        return Ok(Some(Rule::Shape));
    }
    if !has_words(
        program,
        derivation,
        &tables.tests,
        signatures,
        needs.have_words,
        number,
        node,
        function,
        line,
    ) {
        return Ok(Some(Rule::Empty));
    }
    if !has_no_alias(
        alloc, program, derivation, signatures, number, node, function, line,
    )? {
        return Ok(Some(Rule::Alias));
    }
    let all = demands(
        alloc, program, derivation, signatures, number, node, function, line,
    )?;
    broken_by(
        alloc,
        program,
        derivation,
        tables,
        all.as_slice(),
        number,
        node,
        function,
        line,
    )
}

/// The first broken rule of a node with its line, if they are there.
fn broken_at_node(
    alloc: Global,
    program: &Program,
    derivation: &Derivation,
    tables: &Tables,
    number: usize,
    node: &Node,
    line: Option<&DerivedNode>,
) -> Result<Option<Rule>, AllocError>
    requires well { WellFormed (program_view program.now) }
    requires values { IsTrue (has_values (program_view program.now) (derivation_view derivation.now)) }
    requires tables { AreTables (program_view program.now) (derivation_view derivation.now) tables.now }
    requires before { AreScopedBefore (program_view program.now) (derivation_view derivation.now) number }
    requires node { node_at (program_view program.now) number ≡ Some (node_view node.now) }
    ensures { IfOk result (λ o. option_map rule_view o
        ≡ broken_in (program_view program.now) (derivation_view derivation.now) number (node_view node.now)
        (function_at (program_view program.now) node.now.function) (option_map line_view (option_copied line.entry))) }
{
    match function_of(program, node.function) {
        None => Ok(Some(Rule::Shape)),
        Some(function) => match line {
            None => Ok(Some(Rule::Shape)),
            Some(line) => broken_in_place(
                alloc, program, derivation, tables, number, node, function, line,
            ),
        },
    }
}

/// The first broken rule at a number.
#[tactic(auto, using(crate::proofs::FirstBad::no_node, crate::proofs::FirstBad::line_alone, crate::proofs::FirstBad::with_node))]
pub fn broken_rule(
    alloc: Global,
    program: &Program,
    derivation: &Derivation,
    tables: &Tables,
    number: usize,
) -> Result<Option<Rule>, AllocError>
    requires well { WellFormed (program_view program.now) }
    requires values { IsTrue (has_values (program_view program.now) (derivation_view derivation.now)) }
    requires tables { AreTables (program_view program.now) (derivation_view derivation.now) tables.now }
    requires before { AreScopedBefore (program_view program.now) (derivation_view derivation.now) number }
    ensures { IfOk result (λ o. option_map rule_view o
        ≡ broken_rule_of (program_view program.now) (derivation_view derivation.now) number) }
{
    let line = line_of(derivation, number);
    match node_of(program, number) {
        Some(node) => broken_at_node(alloc, program, derivation, tables, number, node, line),
        None => match line {
            None => Ok(None),
            Some(_) => Ok(Some(Rule::Shape)),
        },
    }
}

#[tactic(auto, using(crate::proofs::Gets::line_get))]
fn line_of(derivation: &Derivation, number: usize) -> Option<&DerivedNode>
    ensures { option_map line_view (option_copied result) ≡ line_at (derivation_view derivation.now) number }
{
    derivation.nodes.as_slice().get(number)
}

#[tactic(auto, using(crate::proofs::Gets::node_get))]
fn node_of(program: &Program, number: usize) -> Option<&Node>
    ensures { option_map node_view (option_copied result) ≡ node_at (program_view program.now) number }
{
    program.nodes.as_slice().get(number)
}

#[tactic(auto, using(crate::proofs::Gets::function_get))]
fn function_of(program: &Program, number: u32) -> Option<&Function>
    ensures { option_map function_view (option_copied result) ≡ function_at (program_view program.now) number }
{
    program.functions.as_slice().get(number as usize)
}
