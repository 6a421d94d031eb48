// Stars of linear sets.
ghost use Rattle.std.specs.Prelude.{◌≡◌, ◌∷◌, [], ◌^◌, map, IfOk};
ghost use Rattle.pat_words_spec.specs.Words.{no_word};
ghost use Rattle.pat_bags.specs.Views.{word_of};
ghost use Rattle.pat_inclusion_spec.specs.Counts.{most_tags};
ghost use Rattle.pat_inclusion_spec.specs.LinearSets.{linear_set, SetsWithin};
ghost use Rattle.pat_inclusion_spec.specs.ClosedForms.{only_empty as only_empty_set, add_period as add_period_of, add_periods as add_periods_of, set_star as set_star_of, times_stars as times_stars_of, stars_are_short, SetsClean};
ghost use Rattle.pat_linear.specs.Views.{set_view, sets_view};
ghost use Rattle.pat_linear.specs.Forms.{GivesSets};
ghost use Rattle.pat_linear.specs.WordSets.{base_of};

use crate::comparing::{add_period, copied};
use crate::error::FormError;
use crate::products::product;
use crate::set::LinearSet;
use pat_bags::Bag;
use pat_sequences::Sequence;
use std::alloc::{AllocError, Global};

/// The empty word alone.
pub fn only_empty(alloc: Global) -> LinearSet
    ensures { set_view result ≡ only_empty_set }
{
    LinearSet {
        base: Bag::empty(),
        periods: Sequence::new(alloc),
    }
}

/// The list of one set.
fn list_of(alloc: Global, set: LinearSet) -> Result<Sequence<LinearSet>, AllocError>
    ensures { IfOk result (λ sets. sets ≡ set ∷ []) }
{
    Ok(Sequence::from_vec(vec![in alloc; set]?))
}

/// The finite sums of words of the set.
fn set_star(alloc: Global, set: &LinearSet) -> Result<Sequence<LinearSet>, AllocError>
    ensures { IfOk result (λ sets. sets_view sets ≡ set_star_of most_tags (set_view set.now)) }
{
    if set.periods.is_empty() {
        let star = star_of_base(alloc, &set.base)?;
        return list_of(alloc, star);
    }
    let mut periods = copied(alloc, set.periods.as_slice())?;
    add_period(&mut periods, &set.base)?;
    let mut sets = list_of(alloc, only_empty(alloc))?;
    sets.push(LinearSet {
        base: set.base,
        periods,
    })?;
    Ok(sets)
}

/// The sums of any number of the word.
fn star_of_base(alloc: Global, base: &Bag) -> Result<LinearSet, AllocError>
    ensures { IfOk result (λ set. set_view set ≡ linear_set no_word (add_period_of most_tags [] (word_of base.now))) }
{
    let mut periods = Sequence::new(alloc);
    add_period(&mut periods, base)?;
    Ok(LinearSet {
        base: Bag::empty(),
        periods,
    })
}

/// The finite sums of words of sets that have no periods.
pub fn star_of_words(alloc: Global, sets: &[LinearSet]) -> Result<LinearSet, AllocError>
    ensures { IfOk result (λ set. set_view set ≡ linear_set no_word (add_periods_of most_tags [] (map base_of (sets_view sets.now)))) }
{
    let mut periods = Sequence::new(alloc);
    for set in sets {
        add_period(&mut periods, &set.base)?;
    }
    Ok(LinearSet {
        base: Bag::empty(),
        periods,
    })
}

/// The finite sums of words of the sets: what was made so far, times the star of each further set in turn.
pub fn star(alloc: Global, sets: &[LinearSet]) -> Result<Sequence<LinearSet>, FormError>
    requires within { SetsWithin (2 ^ 27) (2 ^ 27) (sets_view sets.now) }
    requires clean { SetsClean most_tags (sets_view sets.now) }
    ensures { GivesSets result (stars_are_short most_tags (only_empty_set ∷ []) (sets_view sets.now))
        (times_stars_of most_tags (only_empty_set ∷ []) (sets_view sets.now)) }
{
    let mut made = list_of(alloc, only_empty(alloc))?;
    for set in sets {
        let factor = set_star(alloc, set)?;
        made = product(alloc, made, factor)?;
    }
    Ok(made)
}
