// Closed forms along a pattern's right parts, where each set is multiplied once.
ghost use Rattle.std.specs.Prelude.{◌≡◌, ◌^◌, IsTrue, map};
ghost use Rattle.pat_words_spec.specs.Tags.{tags_below};
ghost use Rattle.pat_patterns.specs.Views.{pattern_view};
ghost use Rattle.pat_inclusion_spec.specs.Counts.{most_tags};
ghost use Rattle.pat_inclusion_spec.specs.LinearSets.{SetWithin};
ghost use Rattle.pat_inclusion_spec.specs.ClosedForms.{is_small as is_small_of, set_product as set_product_of, sets_of, lists_are_short};
ghost use Rattle.pat_linear.specs.Views.{set_view, sets_view};
ghost use Rattle.pat_linear.specs.Forms.{GivesSets};
ghost use Rattle.pat_linear.specs.Along.{Appends, Multiplies};

use crate::error::FormError;
use crate::forms::part_form;
use crate::products::{multiply_by, push_row};
use crate::set::LinearSet;
use crate::stars::only_empty;
use pat_limits::MOST_SETS;
use pat_patterns::Pattern;
use pat_sequences::Sequence;
use std::alloc::Global;

/// Appends the sets of the pattern, each multiplied with the factor.
fn append_form(
    alloc: Global,
    factor: &LinearSet,
    p: &Pattern,
    done: &mut Sequence<LinearSet>,
) -> Result<(), FormError>
    requires small { IsTrue (is_small_of (pattern_view p.now)) }
    requires tags { IsTrue (tags_below most_tags (pattern_view p.now)) }
    requires factor { SetWithin (2 ^ 27) (2 ^ 27) (set_view factor.now) }
    ensures { Appends result (lists_are_short most_tags (pattern_view p.now))
        (map (set_product_of most_tags (set_view factor.now)) (sets_of most_tags (pattern_view p.now)))
        (sets_view done.old) (sets_view done.new) }
{
    let sets = part_form(alloc, p, 1)?;
    if sets.len().saturating_add(done.len()) > MOST_SETS {
        return Err(FormError::TooLarge);
    }
    push_row(alloc, factor, sets.as_slice(), done)?;
    Ok(())
}

/// Multiplies the factor with the one set of the pattern, if it has just one.
fn multiply_single(alloc: Global, p: &Pattern, factor: &mut LinearSet) -> Result<bool, FormError>
    requires small { IsTrue (is_small_of (pattern_view p.now)) }
    requires tags { IsTrue (tags_below most_tags (pattern_view p.now)) }
    requires factor { SetWithin (2 ^ 27) (2 ^ 27) (set_view factor.old) }
    ensures { Multiplies result (lists_are_short most_tags (pattern_view p.now)) (sets_of most_tags (pattern_view p.now))
        (set_view factor.old) (set_view factor.new) }
{
    let sets = part_form(alloc, p, 1)?;
    if sets.len() != 1 {
        return Ok(false);
    }
    multiply_by(factor, &sets.as_slice()[0])?;
    Ok(true)
}

/// The closed form of a small pattern, part after part down to the right: what stands left of a product is a factor of all behind
/// it.
pub fn form_along(alloc: Global, p: &Pattern) -> Result<Sequence<LinearSet>, FormError>
    requires small { IsTrue (is_small_of (pattern_view p.now)) }
    requires tags { IsTrue (tags_below most_tags (pattern_view p.now)) }
    ensures { GivesSets result (lists_are_short most_tags (pattern_view p.now)) (sets_of most_tags (pattern_view p.now)) }
{
    let mut done = Sequence::new(alloc);
    let mut factor = only_empty(alloc);
    let mut rest = p;
    loop {
        match rest {
            Pattern::Sum(left, right) => {
                append_form(alloc, &factor, left, &mut done)?;
                rest = right;
            }
            Pattern::Prod(left, right) => {
                if !multiply_single(alloc, left, &mut factor)? {
                    append_form(alloc, &factor, rest, &mut done)?;
                    return Ok(done);
                }
                rest = right;
            }
            _ => {
                append_form(alloc, &factor, rest, &mut done)?;
                return Ok(done);
            }
        }
    }
}
