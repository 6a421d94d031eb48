// Copies of patterns in which variables are numbered anew.
//
// These calls go as deep as the pattern, the left side of a constraint. Inference makes none deeper than statements, brackets and
// operators nest in a text, which is some 17,000 levels.
ghost use Rattle.std.specs.Prelude.{◌≡◌, ◌∷◌, IfOk, OnOk};
ghost use Rattle.pat_patterns.specs.Views.{pattern_view, patterns_view};
ghost use Rattle.pat_solve_bounded.specs.replacing.Ascending.{IsAscending};
ghost use Rattle.pat_solve_bounds.specs.renumbered.Renaming.{place_in, renamed as renamed_by};

use crate::renumbered::places::place_of;
use pat_patterns::{Pattern, join_product, join_star, join_sum, take_one};
use pat_sequences::Stack;
use std::alloc::{AllocError, Global};

/// The pattern with the place of each variable among ascending ones in place of its number.
pub fn renamed(alloc: Global, p: &Pattern, variables: &[u32]) -> Result<Pattern, AllocError>
    requires { IsAscending variables.now }
    ensures { IfOk result (λ q. pattern_view q ≡ renamed_by (place_in variables.now) (pattern_view p.now)) }
{
    let mut done = Stack::new(alloc);
    rename_onto(alloc, p, variables, &mut done)?;
    Ok(take_one(&mut done))
}

// `pat_certificate_checks` renumbers by names in any order; here they ascend, and a place is found by halves.
/// Puts the renamed pattern on the stack.
fn rename_onto(
    alloc: Global,
    p: &Pattern,
    variables: &[u32],
    done: &mut Stack<Pattern>,
) -> Result<(), AllocError>
    requires { IsAscending variables.now }
    ensures { OnOk result (patterns_view done.new ≡ renamed_by (place_in variables.now) (pattern_view p.now) ∷ patterns_view done.old) }
{
    match p {
        Pattern::Zero => done.push(Pattern::Zero),
        Pattern::One => done.push(Pattern::One),
        Pattern::Tag(tag) => done.push(Pattern::Tag(*tag)),
        Pattern::Var(number) => {
            let place = place_of(variables, *number)?;
            done.push(Pattern::Var(place))
        }
        Pattern::Sum(left, right) => {
            rename_onto(alloc, left, variables, done)?;
            rename_onto(alloc, right, variables, done)?;
            join_sum(alloc, done)
        }
        Pattern::Prod(left, right) => {
            rename_onto(alloc, left, variables, done)?;
            rename_onto(alloc, right, variables, done)?;
            join_product(alloc, done)
        }
        Pattern::Star(part) => {
            rename_onto(alloc, part, variables, done)?;
            join_star(alloc, done)
        }
    }
}
