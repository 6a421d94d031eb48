// What searches have found so far.
ghost use Rattle.std.specs.Prelude.{◌≡◌, option_map};
ghost use Rattle.pat_bags.specs.Views.{word_of};
ghost use Rattle.pat_witnesses.specs.Views.{search_view, bound_view};
ghost use Rattle.pat_solve_grids.specs.Findings.{first_or, noted};
ghost use Rattle.pat_solve_grids.specs.Views.{refuted_view, findings_view};

use pat_witnesses::{Refutation, Search};

/// What searches have found so far: the number of the first constraint that is refuted, and how; and whether one is oversized.
#[derive(Drop)]
pub struct Findings {
    pub refuted: Option<(usize, Refutation)>,
    pub is_oversized: bool,
}

/// The findings, and what the search of the constraint with the number answers.
pub fn note(answer: Search, number: usize, findings: Findings) -> Findings
    ensures { findings_view result ≡ noted (search_view answer) number (findings_view findings) }
{
    match answer {
        Search::Inside => findings,
        Search::Found(refutation) => Findings {
            refuted: keep_first(findings.refuted, number, refutation),
            is_oversized: findings.is_oversized,
        },
        Search::Large => Findings {
            refuted: findings.refuted,
            is_oversized: true,
        },
    }
}

/// What was found first.
fn keep_first(
    refuted: Option<(usize, Refutation)>,
    number: usize,
    found: Refutation,
) -> Option<(usize, Refutation)>
    ensures { option_map refuted_view result
        ≡ first_or (option_map refuted_view refuted) (number, word_of found.word, bound_view found.tree) }
{
    match refuted {
        None => Some((number, found)),
        Some(first) => kept(first, found),
    }
}

fn kept<T: Drop>(first: (usize, Refutation), _rest: T) -> Option<(usize, Refutation)>
    ensures { option_map refuted_view result ≡ Some (refuted_view first) }
{
    Some(first)
}
