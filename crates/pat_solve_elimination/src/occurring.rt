// Which of some ascending variables occurs first in a pattern: a search along the pattern, not along the variables.
ghost use Rattle.std.specs.Prelude.{◌≡◌, ◌≤◌, ◌<◌, ◌∷◌, ℕ, false, nat_eq, length, get_or, IfOk};
ghost use Rattle.pat_patterns.specs.Views.{pattern_view};
ghost use Rattle.pat_patterns.specs.postfix_form.Postfix.{nodes};
ghost use Rattle.pat_patterns.specs.postfix_form.Views.{pointed};
ghost use Rattle.pat_solve_bounded.specs.replacing.Ascending.{IsAscending};
ghost use Rattle.pat_solve_bounded.specs.Variables.{has_var, any_has};

use pat_patterns::Pattern;
use pat_sequences::Stack;
use pat_solve_bounded::find_variable;
use std::alloc::{AllocError, Global};

/// A place from `from` on, or the number of variables: those from `from` on that stand before it don't occur in the pattern.
pub fn next_place(
    alloc: Global,
    p: &Pattern,
    variables: &[u32],
    from: usize,
) -> Result<usize, AllocError>
    requires ascending { IsAscending variables.now }
    requires within { from ≤ length variables.now }
    ensures from { IfOk result (λ place. from ≤ place) }
    ensures within { IfOk result (λ place. place ≤ length variables.now) }
    ensures absent { IfOk result (λ place. (j : ℕ) → from ≤ j → j < place
        → has_var (get_or variables.now j 0) (pattern_view p.now) ≡ false) }
{
    let mut place = variables.len();
    let mut waiting = Stack::new(alloc);
    waiting.push(p)?;
    while let Some(part) = waiting.pop() {
        place = look(part, variables, from, place, &mut waiting)?;
    }
    Ok(place)
}

/// The place, or that of the part's variable where that comes first; its parts wait.
fn look<'a>(
    part: &'a Pattern,
    variables: &[u32],
    from: usize,
    place: usize,
    waiting: &mut Stack<&'a Pattern>,
) -> Result<usize, AllocError>
    requires ascending { IsAscending variables.now }
    requires within { place ≤ length variables.now }
    ensures from { IfOk result (λ next. from ≤ place → from ≤ next) }
    ensures within { IfOk result (λ next. next ≤ place) }
    ensures absent { IfOk result (λ next. (j : ℕ) → from ≤ j → j < next
        → any_has (get_or variables.now j 0) (pointed waiting.new)
        ≡ any_has (get_or variables.now j 0) (pattern_view part.now ∷ pointed waiting.old)) }
    ensures fewer { IfOk result (λ next. nodes (pointed waiting.new) < nodes (pattern_view part.now ∷ pointed waiting.old)) }
{
    match part {
        Pattern::Zero | Pattern::One | Pattern::Tag(_) => Ok(place),
        Pattern::Var(number) => Ok(earlier(variables, from, place, *number)),
        Pattern::Sum(left, right) | Pattern::Prod(left, right) => {
            waiting.push(left)?;
            waiting.push(right)?;
            Ok(place)
        }
        Pattern::Star(inner) => {
            waiting.push(inner)?;
            Ok(place)
        }
    }
}

/// The place, or that of the variable where that is one from `from` on and comes first.
fn earlier(variables: &[u32], from: usize, place: usize, variable: u32) -> usize
    requires ascending { IsAscending variables.now }
    requires within { place ≤ length variables.now }
    ensures from { from ≤ place → from ≤ result }
    ensures within { result ≤ place }
    ensures others { (j : ℕ) → from ≤ j → j < result → nat_eq variable (get_or variables.now j 0) ≡ false }
{
    match find_variable(variables, variable) {
        Some(own) => {
            if from <= own && own < place {
                own
            } else {
                place
            }
        }
        None => place,
    }
}
