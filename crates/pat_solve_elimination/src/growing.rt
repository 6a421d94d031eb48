// Whether variables in a pattern may give way to their values all at once.
ghost use Rattle.std.specs.Prelude.{◌≡◌, ◌≤◌, ◌<◌, ◌+◌, ◌⊎◌, ◌∷◌, ℕ, false, true, length, get_or, max, IfOk, IfSome};
ghost use Rattle.pat_patterns.specs.Views.{pattern_view};
ghost use Rattle.pat_patterns.specs.postfix_form.Postfix.{nodes};
ghost use Rattle.pat_patterns.specs.postfix_form.Views.{pointed};
ghost use Rattle.pat_words_spec.specs.Sizes.{size_of};
ghost use Rattle.pat_solve_bounded.specs.Variables.{has_var, any_has};
ghost use Rattle.pat_solve_bounded.specs.Views.{measured_view, measured_list};
ghost use Rattle.pat_solve_bounded.specs.replacing.Ascending.{IsAscending, paired};
ghost use Rattle.pat_solve_bounded.specs.replacing.Replacing.{listed_in};
ghost use Rattle.pat_solve_elimination.specs.Growing.{all_grown, Settled, MayGrow};
ghost use Rattle.pat_limits.specs.Limits.{most_nodes};

use pat_limits::{MOST_LEVELS, MOST_NODES};
use pat_patterns::Pattern;
use pat_sequences::Stack;
use pat_solve_bounded::{Measured, value_among};
use std::alloc::{AllocError, Global};

/// What the parts that have been looked at come to, with each value as it stands.
#[derive(Clone, Copy)]
pub struct Growth {
    pub nodes: u32,
    /// The most levels of a part without parts, or of a value.
    pub levels: u32,
}

impl Growth {
    /// With a part more; `None` where these are too many nodes.
    pub(crate) fn with(self, nodes: u32, levels: u32) -> Option<Growth>
        ensures { IfSome result (λ next. (next.nodes ≡ self.nodes + nodes) × (next.nodes ≤ most_nodes)
            × (next.levels ≡ max self.levels levels)) }
    {
        let nodes = self.nodes.saturating_add(nodes);
        if nodes > MOST_NODES {
            return None;
        }
        Some(Growth {
            nodes,
            levels: self.levels.max(levels),
        })
    }
}

/// Whether variables in the pattern may give way to their values all at once: no value that comes in has one of them, and the pattern
/// with each value as it stands is within the limits, before it is simplified.
pub fn may_grow(
    alloc: Global,
    variables: &[u32],
    values: &[Measured],
    f: &Measured,
) -> Result<bool, AllocError>
    requires ascending { IsAscending variables.now }
    requires as_many { length variables.now ≡ length values.now }
    ensures { IfOk result (λ yes. yes ≡ true → MayGrow (paired variables.now (measured_list values.now)) (measured_view f.now)) }
{
    if variables.is_empty() {
        return Ok(false);
    }
    let mut growth = Growth {
        nodes: 0,
        levels: 1,
    };
    let mut waiting = Stack::new(alloc);
    waiting.push(&f.pattern)?;
    while let Some(part) = waiting.pop() {
        match grow(part, variables, values, growth, &mut waiting)? {
            Some(next) => growth = next,
            None => return Ok(false),
        }
    }
    Ok(growth.levels <= MOST_LEVELS - f.levels)
}

/// With the part, whose own parts wait; `None` where there are too many nodes, or a value has one of the variables.
fn grow<'a>(
    part: &'a Pattern,
    variables: &[u32],
    values: &[Measured],
    growth: Growth,
    waiting: &mut Stack<&'a Pattern>,
) -> Result<Option<Growth>, AllocError>
    requires ascending { IsAscending variables.now }
    requires as_many { length variables.now ≡ length values.now }
    ensures nodes { let vs = paired variables.now (measured_list values.now) in
        IfOk result (λ made. IfSome made (λ next.
        (next.nodes + all_grown vs (pointed waiting.new) ≡ growth.nodes + all_grown vs (pattern_view part.now ∷ pointed waiting.old))
        × (next.nodes ≤ most_nodes))) }
    ensures levels { IfOk result (λ made. IfSome made (λ next. growth.levels ≤ next.levels)) }
    ensures settled { let vs = paired variables.now (measured_list values.now) in
        IfOk result (λ made. IfSome made (λ next. (k : ℕ)
        → Settled vs next.levels k ⊎ (any_has k (pointed waiting.new) ≡ any_has k (pattern_view part.now ∷ pointed waiting.old)))) }
    ensures fewer { IfOk result (λ made. IfSome made
        (λ next. nodes (pointed waiting.new) < nodes (pattern_view part.now ∷ pointed waiting.old))) }
{
    match part {
        Pattern::Zero | Pattern::One | Pattern::Tag(_) => Ok(growth.with(1, 1)),
        Pattern::Var(number) => Ok(grow_by_value(variables, values, *number, growth)),
        Pattern::Sum(left, right) | Pattern::Prod(left, right) => {
            waiting.push(left)?;
            waiting.push(right)?;
            Ok(growth.with(1, 1))
        }
        Pattern::Star(inner) => {
            waiting.push(inner)?;
            Ok(growth.with(1, 1))
        }
    }
}

/// With what the variable gives way to.
fn grow_by_value(
    variables: &[u32],
    values: &[Measured],
    variable: u32,
    growth: Growth,
) -> Option<Growth>
    requires ascending { IsAscending variables.now }
    requires as_many { length variables.now ≡ length values.now }
    ensures nodes { let vs = paired variables.now (measured_list values.now) in
        IfSome result (λ next. (next.nodes ≡ growth.nodes + size_of (listed_in vs variable)) × (next.nodes ≤ most_nodes)) }
    ensures levels { IfSome result (λ next. growth.levels ≤ next.levels) }
    ensures settled { let vs = paired variables.now (measured_list values.now) in IfSome result (λ next. Settled vs next.levels variable) }
{
    match value_among(variables, values, variable) {
        Some(value) => {
            if has_none(value, variables) {
                growth.with(value.nodes, value.levels)
            } else {
                None
            }
        }
        None => growth.with(1, 1),
    }
}

/// Whether the pattern is known to have none of the ascending variables.
pub fn has_none(f: &Measured, variables: &[u32]) -> bool
    requires { IsAscending variables.now }
    ensures { result ≡ true → (i : ℕ) → i < length variables.now → has_var (get_or variables.now i 0) (measured_view f.now) ≡ false }
{
    match variables.last() {
        Some(last) => *last < f.least,
        None => true,
    }
}
