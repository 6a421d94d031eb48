// Whether the clauses of a guard cover its pattern, by the clauses themselves: a tag needs no bound here.
ghost use Rattle.std.specs.Prelude.{◌≡◌, map};
ghost use Rattle.pat_words_spec.specs.Patterns.{is_nullable, has_bare, bare_is_empty, covers as covers_of};
ghost use Rattle.pat_type_system_spec.specs.Typings.{is_received as is_received_by};
ghost use Rattle.pat_core.specs.Views.{clause_view};
ghost use Rattle.pat_patterns.specs.Views.{pattern_view};

use pat_core::Clause;
use pat_patterns::{Pattern, nullable};

/// Whether each word of the pattern is empty and there is a free clause, or has a tag of a receive clause.
pub fn is_covered(pattern: &Pattern, clauses: &[Clause], has_free: bool) -> bool
    ensures { result ≡ covers_of (pattern_view pattern.now) (is_received_by (map clause_view clauses.now)) has_free }
{
    bare_empty(pattern, clauses) && (!nullable(pattern) || has_free)
}

/// Whether the tag is that of a receive clause.
fn is_received(clauses: &[Clause], tag: u8) -> bool
    ensures { result ≡ is_received_by (map clause_view clauses.now) tag }
{
    for clause in clauses {
        if tag == clause.tag {
            return true;
        }
    }
    false
}

/// Whether there is a word without a received tag.
fn has_bare_word(pattern: &Pattern, clauses: &[Clause]) -> bool
    ensures { result ≡ has_bare (is_received_by (map clause_view clauses.now)) (pattern_view pattern.now) }
{
    match pattern {
        Pattern::Zero | Pattern::Var(_) => false,
        Pattern::One | Pattern::Star(_) => true,
        Pattern::Tag(tag) => !is_received(clauses, *tag),
        Pattern::Sum(left, right) => has_bare_word(left, clauses) || has_bare_word(right, clauses),
        Pattern::Prod(left, right) => has_bare_word(left, clauses) && has_bare_word(right, clauses),
    }
}

/// Whether each word without a received tag is empty.
fn bare_empty(pattern: &Pattern, clauses: &[Clause]) -> bool
    ensures { result ≡ bare_is_empty (is_received_by (map clause_view clauses.now)) (pattern_view pattern.now) }
{
    match pattern {
        Pattern::Zero | Pattern::One | Pattern::Var(_) => true,
        Pattern::Tag(tag) => is_received(clauses, *tag),
        Pattern::Star(part) => bare_empty(part, clauses),
        Pattern::Sum(left, right) => bare_empty(left, clauses) && bare_empty(right, clauses),
        Pattern::Prod(left, right) => {
            !(has_bare_word(left, clauses) && has_bare_word(right, clauses))
                || (bare_empty(left, clauses) && bare_empty(right, clauses))
        }
    }
}
