// Bags have no tags from 32 on.
ghost use Rattle.std.specs.Prelude.{ℕ};
ghost use Rattle.std.specs.List.{AllByRecursion};
ghost use Rattle.pat_words_spec.specs.Tags.{HasTagsBelow};
ghost use Rattle.pat_inclusion_spec.specs.Counts.{most_tags};
ghost use Rattle.pat_inclusion_spec.specs.LinearSets.{SetsBelow};
ghost use Rattle.pat_linear.specs.Views.{words_of, sets_view};

use crate::coefficients::tags_are_few;
use pat_bags::Bag;
use pat_linear::LinearSet;

/// The sets have no tags from 32 on. It does nothing.
pub fn sets_are_few(sets: &[LinearSet])
    ensures { SetsBelow most_tags (sets_view sets.now) }
{
    for set in sets {
        tags_are_few(&set.base);
        words_are_few(set.periods.as_slice());
    }
}

fn words_are_few(bags: &[Bag])
    ensures { AllByRecursion (HasTagsBelow most_tags) (words_of bags.now) }
{
    for bag in bags {
        tags_are_few(bag);
    }
}
