// The derivation of a solved problem.
ghost use Rattle.std.specs.Prelude.{◌≡◌, ◌≤◌, [], length, map, IfOk};
ghost use Rattle.pat_semantics_spec.specs.WellFormed.{WellFormed};
ghost use Rattle.pat_derivation_spec.specs.Validity.{IsValid};
ghost use Rattle.pat_infer_spec.specs.Walk.{inferred};
ghost use Rattle.pat_solve_spec.specs.Derived.{ValuesShow};
ghost use Rattle.pat_core.specs.Views.{program_view};
ghost use Rattle.pat_derivations.specs.Views.{certs_view, vars_view, lines_view, derivation_view};
ghost use Rattle.pat_infer_problems.specs.Problems.{IsProblemOf};
ghost use Rattle.pat_solve_bounds.specs.results.Views.{forms_of, IsSolution};
ghost use Rattle.pat_solve_derivation.specs.Lines.{IsFound, with_certs};
ghost use Rattle.pat_solve_derivation.specs.Made.{IsDerived};

use crate::lines::{bare_lines, put_certs};
use crate::nodes::all_certs;
use pat_core::Program;
use pat_derivations::{Cert, Derivation, VarValue};
use pat_infer_problems::Problem;
use pat_sequences::Sequence;
use pat_solve_bounds::Solution;
use pat_solve_laws::{answer_laws, derived_laws};
use pat_types::NodeType;
use std::alloc::{AllocError, Global};

/// The derivation of a solved problem of a well-formed program: for each node a line with the type that was found, the values of
/// variables, and certificates of the inclusions that each node needs, in the judge's order. It is valid.
pub fn derivation_of(
    alloc: Global,
    program: &Program,
    problem: Problem,
    solution: Solution,
) -> Result<Derivation, AllocError>
    requires well { WellFormed (program_view program.now) }
    requires clean { (inferred (program_view program.now)).findings ≡ [] }
    requires problem { IsProblemOf program.now problem }
    requires solution { IsSolution (program_view program.now) solution }
    ensures made { IfOk result (λ d. IsDerived (program_view program.now) (vars_view solution.values) (forms_of solution.bounds)
        (derivation_view d)) }
    ensures valid { IfOk result (λ d. IsValid (program_view program.now) (derivation_view d)) }
{
    answer_laws();
    derived_laws();
    let nodes = problem.into_nodes();
    let (bounds, values) = solution.into_parts();
    derived(alloc, program, nodes, values, bounds.as_slice())
}

/// The derivation of these types of nodes and of values that show the constraints.
fn derived(
    alloc: Global,
    program: &Program,
    types: Sequence<NodeType>,
    values: Sequence<(u32, VarValue)>,
    bounds: &[Option<u32>],
) -> Result<Derivation, AllocError>
    requires well { WellFormed (program_view program.now) }
    requires clean { (inferred (program_view program.now)).findings ≡ [] }
    requires found { IsFound (program_view program.now) types }
    requires show { ValuesShow (program_view program.now) (vars_view values) (forms_of bounds.now) }
    ensures { IfOk result (λ d. IsDerived (program_view program.now) (vars_view values) (forms_of bounds.now) (derivation_view d)) }
{
    let nodes = bare_lines(alloc, types)?;
    let bare = Derivation {
        vars: values,
        nodes,
    };
    let certs = all_certs(alloc, program, &bare, bounds)?;
    Ok(completed(bare, certs))
}

/// The derivation with these certificates in place of its own.
fn completed(derivation: Derivation, certs: Sequence<Sequence<Cert>>) -> Derivation
    requires { length certs ≤ length derivation.nodes }
    ensures { derivation_view result ≡ record {
      vars = vars_view derivation.vars;
      lines
          = with_certs (lines_view derivation.nodes) (map certs_view certs);
    } }
{
    let (vars, nodes) = derivation.into_parts();
    let mut lines = nodes.items;
    put_certs(lines.as_mut_slice(), certs);
    Derivation {
        vars,
        nodes: Sequence::from_vec(lines),
    }
}
