// The bound of an interface's grids.
ghost use Rattle.std.specs.Prelude.{◌≡◌, ◌<◌, ◌^◌, ◌-◌, min, length, IfSome, IfNone};
ghost use Rattle.std.specs.List.{AllByRecursion};
ghost use Rattle.pat_words_spec.specs.Flats.{degree_of};
ghost use Rattle.pat_semantics_spec.specs.WellFormed.{WellFormed};
ghost use Rattle.pat_infer_spec.specs.Shapes.{ConstraintFits};
ghost use Rattle.pat_infer_spec.specs.Walk.{inferred, all_vars};
ghost use Rattle.pat_solve_spec.specs.Answers.{IsInBounds, grid_bound as bound_of};
ghost use Rattle.pat_core.specs.Views.{program_view};
ghost use Rattle.pat_patterns.specs.Views.{pattern_view};
ghost use Rattle.pat_infer_problems.specs.Problems.{IsProblemOf};
ghost use Rattle.pat_solve_bounds.specs.lower_bounds.Indexes.{IsIndexOf};
ghost use Rattle.pat_solve_bounds.specs.lower_bounds.Sides.{sides_list};
ghost use Rattle.pat_solve_bounds.specs.renumbered.Systems.{side_at, picked};
ghost use Rattle.pat_solve_grids.specs.Rights.{right_is_flat, right_degree, all_flat, greatest};

use pat_certificate_values::{tag_count, tags_are_few};
use pat_core::Program;
use pat_grid_certificates::is_grid;
use pat_infer_problems::{Constraint, Problem};
use pat_patterns::{Pattern, is_flat};
use pat_solve_bounds::Index;
use pat_types::Right;

/// The bound of the interface's grids, one more than the greatest degree of a right side without variables; `None` exactly where the
/// interface isn't in bounds: where such a right side isn't flat, or there are more than 65,536 points.
pub fn grid_bound(
    program: &Program,
    problem: &Problem,
    index: &Index,
    interface: u32,
) -> Option<u32>
    requires well { WellFormed (program_view program.now) }
    requires problem { IsProblemOf program.now problem.now }
    requires sides { let p = program_view program.now in AllByRecursion (ConstraintFits p (all_vars p)) (inferred p).constraints }
    requires index { IsIndexOf problem.now index.now }
    requires interface { interface < length index.now.constraints }
    requires there { interface < length (program_view program.now).interfaces }
    ensures some { let p = program_view program.now in IfSome result (λ k. IsInBounds p interface × (k ≡ bound_of p interface)) }
    ensures none { let p = program_view program.now in IfNone result (IsInBounds p interface → ⊥) }
{
    tags_are_few(program, interface);
    let tags = tag_count(program, interface) as u8;
    let constraints = problem.constraints.as_slice();
    let numbers = index.constraints_of(interface as usize);
    if !are_flat(constraints, numbers) {
        return None;
    }
    let degree = greatest_degree(constraints, numbers);
    if degree == u32::MAX {
        return None;
    }
    let k = degree + 1;
    if !is_grid(k, tags) {
        return None;
    }
    Some(k)
}

/// Whether the right sides that are no variable are flat, of the constraints with these numbers.
fn are_flat(constraints: &[Constraint], numbers: &[usize]) -> bool
    ensures { result ≡ all_flat (picked (sides_list constraints.now) numbers.now) }
{
    let mut flat = true;
    for number in numbers {
        flat = flat && is_flat_at(constraints, *number);
    }
    flat
}

fn is_flat_at(constraints: &[Constraint], number: usize) -> bool
    ensures { let side = side_at (sides_list constraints.now) number in result ≡ right_is_flat side.right }
{
    match constraints.get(number) {
        None => true,
        Some(constraint) => match &constraint.right {
            Right::Var(_) => true,
            Right::Pattern(right) => is_flat(right),
        },
    }
}

/// The greatest degree of these right sides, up to `u32::MAX`.
fn greatest_degree(constraints: &[Constraint], numbers: &[usize]) -> u32
    ensures { result ≡ min (greatest (picked (sides_list constraints.now) numbers.now)) (2 ^ 32 - 1) }
{
    let mut most = 0;
    for number in numbers {
        most = most.max(degree_at(constraints, *number));
    }
    most
}

fn degree_at(constraints: &[Constraint], number: usize) -> u32
    ensures { let side = side_at (sides_list constraints.now) number in result ≡ min (right_degree side.right) (2 ^ 32 - 1) }
{
    match constraints.get(number) {
        None => 0,
        Some(constraint) => match &constraint.right {
            Right::Var(_) => 0,
            Right::Pattern(right) => degree_within(right),
        },
    }
}

/// The degree of the pattern, up to `u32::MAX`.
fn degree_within(p: &Pattern) -> u32
    ensures { result ≡ min (degree_of (pattern_view p.now)) (2 ^ 32 - 1) }
{
    match p {
        Pattern::Zero | Pattern::One | Pattern::Star(_) | Pattern::Var(_) => 0,
        Pattern::Tag(_) => 1,
        Pattern::Sum(left, right) => degree_within(left).max(degree_within(right)),
        Pattern::Prod(left, right) => degree_within(left).saturating_add(degree_within(right)),
    }
}
