// Whether a word is a word of a pattern: as large a part of the word as tells.
ghost use Rattle.std.specs.Prelude.{◌↔◌, IsTrue, IfOk};
ghost use Rattle.pat_words_spec.specs.Patterns.{In};
ghost use Rattle.pat_bags.specs.Views.{word_of};
ghost use Rattle.pat_patterns.specs.Views.{pattern_view};
ghost use Rattle.pat_refutations.specs.membership.Shortened.{IsCutAbove};

use crate::membership::membership::is_listed;
use pat_bags::Bag;
use pat_inclusion_laws::cut_laws;
use pat_patterns::{Pattern, degree, is_flat, size};
use std::alloc::{AllocError, Global};

/// Whether the bag's word is a word of the pattern. The call lists the words of each part that lie in the word, so time and memory go
/// with their number. Of a word of a flat pattern each count is first lowered to one more than the pattern's degree, so there they go
/// with the pattern alone, however long the word is.
pub fn member(alloc: Global, p: &Pattern, word: &Bag) -> Result<bool, AllocError>
    ensures { IfOk result (λ yes. IsTrue yes ↔ In (pattern_view p.now) (word_of word.now)) }
{
    let short = shortened(p, word);
    is_listed(alloc, p, &short)
}

/// The word, cut where that tells as much of the pattern.
fn shortened(p: &Pattern, word: &Bag) -> Bag
    ensures { In (pattern_view p.now) (word_of result) ↔ In (pattern_view p.now) (word_of word.now) }
{
    cut_laws();
    if !is_flat(p) || size(p) == u32::MAX {
        return *word;
    }
    cut_above(degree(p), word)
}

/// The word, each count lowered to one more than the number, if there is one.
fn cut_above(most: u32, word: &Bag) -> Bag
    ensures { IsCutAbove most (word_of word.now) (word_of result) }
{
    let mut short = *word;
    if most < u32::MAX {
        short.cut(most + 1);
    }
    short
}
