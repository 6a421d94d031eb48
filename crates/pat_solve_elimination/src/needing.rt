// Which of some ascending variables a pattern needs, directly or through the values of others.
ghost use Rattle.std.specs.Prelude.{◌≡◌, ◌≤◌, ◌<◌, ◌∷◌, ◌+◌, ℕ, true, false, length, get_or, slice_set, IfOk, OnOk};
ghost use Rattle.pat_patterns.specs.Views.{pattern_view};
ghost use Rattle.pat_patterns.specs.postfix_form.Postfix.{nodes};
ghost use Rattle.pat_patterns.specs.postfix_form.Views.{pointed};
ghost use Rattle.pat_solve_bounded.specs.Views.{measured_view, measured_list};
ghost use Rattle.pat_solve_bounded.specs.replacing.Ascending.{IsAscending};
ghost use Rattle.pat_solve_bounded.specs.Variables.{any_has};
ghost use Rattle.pat_solve_elimination.specs.Needing.{MarksMore, Marks, AreClosed, is_marked};

use pat_patterns::Pattern;
use pat_sequences::Stack;
use pat_solve_bounded::{Measured, find_variable};
use std::alloc::{AllocError, Global};

/// A mark at each variable that the pattern has, or a later value of a marked one.
pub fn needed_places(
    alloc: Global,
    variables: &[u32],
    values: &[Measured],
    f: &Measured,
) -> Result<Vec<bool>, AllocError>
    requires ascending { IsAscending variables.now }
    requires as_many { length variables.now ≡ length values.now }
    ensures many { IfOk result (λ marks. length marks.items ≡ length variables.now) }
    ensures own { IfOk result (λ marks. Marks variables.now 0 (measured_view f.now) marks.items) }
    ensures closed { IfOk result (λ marks. AreClosed variables.now (measured_list values.now) (length variables.now) marks.items) }
{
    let mut marks = vec![in alloc; false; variables.len()]?;
    mark_variables(alloc, &f.pattern, variables, 0, &mut marks)?;
    for place in 0..variables.len() {
        if marks[place] {
            let value = &values[place];
            mark_variables(alloc, &value.pattern, variables, place + 1, &mut marks)?;
        }
    }
    Ok(marks)
}

/// Marks the variables from `from` on that the pattern has.
fn mark_variables(
    alloc: Global,
    p: &Pattern,
    variables: &[u32],
    from: usize,
    marks: &mut Vec<bool>,
) -> Result<(), AllocError>
    requires ascending { IsAscending variables.now }
    requires many { length marks.old.items ≡ length variables.now }
    ensures more { OnOk result (MarksMore from marks.old.items marks.new.items) }
    ensures marked { OnOk result (Marks variables.now from (pattern_view p.now) marks.new.items) }
{
    let mut waiting = Stack::new(alloc);
    waiting.push(p)?;
    while let Some(part) = waiting.pop() {
        mark_part(part, variables, from, marks, &mut waiting)?;
    }
    Ok(())
}

/// Marks the part's variable; its parts wait.
fn mark_part<'a>(
    part: &'a Pattern,
    variables: &[u32],
    from: usize,
    marks: &mut Vec<bool>,
    waiting: &mut Stack<&'a Pattern>,
) -> Result<(), AllocError>
    requires ascending { IsAscending variables.now }
    requires many { length marks.old.items ≡ length variables.now }
    ensures more { OnOk result (MarksMore from marks.old.items marks.new.items) }
    ensures marked { OnOk result ((i : ℕ) → from ≤ i → i < length variables.now
        → any_has (get_or variables.now i 0) (pattern_view part.now ∷ pointed waiting.old) ≡ true → is_marked marks.new.items i ≡ false
        → any_has (get_or variables.now i 0) (pointed waiting.new) ≡ true) }
    ensures fewer { OnOk result (nodes (pointed waiting.new) < nodes (pattern_view part.now ∷ pointed waiting.old)) }
{
    match part {
        Pattern::Zero | Pattern::One | Pattern::Tag(_) => Ok(()),
        Pattern::Var(number) => {
            mark_variable(*number, variables, from, marks);
            Ok(())
        }
        Pattern::Sum(left, right) | Pattern::Prod(left, right) => {
            waiting.push(left)?;
            waiting.push(right)?;
            Ok(())
        }
        Pattern::Star(inner) => {
            waiting.push(inner)?;
            Ok(())
        }
    }
}

/// Marks the variable, if it is one from `from` on.
fn mark_variable(variable: u32, variables: &[u32], from: usize, marks: &mut Vec<bool>)
    requires ascending { IsAscending variables.now }
    requires many { length marks.old.items ≡ length variables.now }
    ensures more { MarksMore from marks.old.items marks.new.items }
    ensures marked { (i : ℕ) → from ≤ i → i < length variables.now → get_or variables.now i 0 ≡ variable
        → is_marked marks.new.items i ≡ true }
{
    match find_variable(variables, variable) {
        Some(place) => {
            if from <= place {
                marks[place] = true;
            }
        }
        None => {}
    }
}
