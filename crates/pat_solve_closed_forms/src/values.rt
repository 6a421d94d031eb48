// What is found of the closed-form values of an interface.
ghost use Rattle.std.specs.Prelude.{◌≡◌, ◌<◌, ℕ, length, get_or, IfOk, IsTrue};
ghost use Rattle.pat_words_spec.specs.Tags.{tags_below};
ghost use Rattle.pat_inclusion_spec.specs.Counts.{most_tags};
ghost use Rattle.pat_core.specs.declared.program.Program.{Program};
ghost use Rattle.pat_core.specs.Views.{program_view};
ghost use Rattle.pat_solve_spec.specs.Assignments.{value_in};
ghost use Rattle.pat_solve_bounded.specs.Views.{measured_list};
ghost use Rattle.pat_solve_bounded.specs.replacing.Ascending.{IsAscending, paired};
ghost use Rattle.pat_solve_bounds.specs.lower_bounds.Indexes.{IsIndexOf};
ghost use Rattle.pat_solve_closed_forms.specs.Sides.{left_under, right_under};
ghost use Rattle.pat_solve_closed_forms.specs.Findings.{Finds};
ghost use Rattle.pat_solve_closed_forms.specs.Values.{IsInferred, ValuesAre, AnswersBy, answer_of};

use crate::checking::{Finding, find};
use crate::lowers::round_values;
use pat_infer_laws::found_laws;
use pat_infer_problems::{Constraint, Problem};
use pat_sequences::Sequence;
use pat_solve_bounded::Measured;
use pat_solve_bounds::{Index, index_law};
use pat_solve_elimination::fits_law;
use std::alloc::{AllocError, Global};

/// What is found of the closed-form values of an interface.
#[derive(Drop)]
pub enum ClosedValues {
    /// Each constraint is directly covered under the values, of which there is one for each variable, in order.
    Covered(Sequence<Measured>),
    /// A pattern that is made on the way has more than 65,536 nodes or 16,384 levels, or the closed form of a side is too large.
    TooLarge,
    /// Nothing is too large, and the constraint with this number is the interface's first that isn't directly covered.
    Uncovered(usize),
}

/// The closed-form values of the interface, if they cover each of its constraints. The problem is that of a well-formed program in
/// which no rule of inference is broken. The closed form of a value is made only where it is asked for, and once.
pub fn interface_values(
    alloc: Global,
    index: &Index,
    problem: &Problem,
    interface: usize,
) -> Result<ClosedValues, AllocError>
    requires index { IsIndexOf problem.now index.now }
    requires interface { interface < length index.now.constraints }
    requires program { (p : Program) × IsInferred p problem.now }
    ensures { (p : Program) → IsInferred p problem.now → IfOk result (ValuesAre (program_view p) interface) }
{
    found_laws();
    index_law();
    fits_law();
    let variables = index.variables_of(interface);
    let numbers = index.constraints_of(interface);
    let constraints = problem.constraints.as_slice();
    let values = round_values(alloc, index, problem, variables)?;
    match values {
        Some(own) => find_under(alloc, constraints, numbers, variables, own),
        None => Ok(ClosedValues::TooLarge),
    }
}

/// What is found of the constraints with these numbers under the values, with the values where they cover all of them.
fn find_under(
    alloc: Global,
    constraints: &[Constraint],
    numbers: &[usize],
    variables: &[u32],
    values: Sequence<Measured>,
) -> Result<ClosedValues, AllocError>
    requires ascending { IsAscending variables.now }
    requires as_many { length variables.now ≡ length values }
    requires values { (k : ℕ) → IsTrue (tags_below most_tags (value_in (paired variables.now (measured_list values)) k)) }
    requires numbers { (j : ℕ) → j < length numbers.now → get_or numbers.now j 0 < length constraints.now }
    requires lefts { (j : ℕ) → j < length numbers.now
        → IsTrue (tags_below most_tags (left_under (value_in (paired variables.now (measured_list values))) constraints.now
        (get_or numbers.now j 0))) }
    requires rights { (j : ℕ) → j < length numbers.now
        → IsTrue (tags_below most_tags (right_under (value_in (paired variables.now (measured_list values))) constraints.now
        (get_or numbers.now j 0))) }
    ensures { IfOk result (AnswersBy (Finds (value_in (paired variables.now (measured_list values))) constraints.now numbers.now
        (length numbers.now)) values) }
{
    let found = find(alloc, constraints, numbers, variables, values.as_slice())?;
    Ok(answer(found, values))
}

/// What is found, with the values where they cover all constraints.
fn answer(found: Finding, values: Sequence<Measured>) -> ClosedValues
    ensures { result ≡ answer_of found values }
{
    match found {
        Finding::Covered => ClosedValues::Covered(values),
        Finding::Uncovered(number) => ClosedValues::Uncovered(number),
        Finding::TooLarge => ClosedValues::TooLarge,
    }
}
