// What the words of a pattern are: whether there is one, and which tags they have.
ghost use Rattle.std.specs.Prelude.{◌≡◌, ◌<◌, ◌-◌, ◌^◌, IsTrue, ◌↔◌};
ghost use Rattle.pat_words_spec.specs.Words.{Word, no_word};
ghost use Rattle.pat_words_spec.specs.Patterns.{In, Covers, is_nullable, is_inhabited, has_bare, bare_is_empty};
ghost use Rattle.pat_words_spec.specs.Patterns.{covers as covers_of};
ghost use Rattle.pat_words_spec.specs.Flats.{is_choice as is_choice_of, is_flat as is_flat_of, degree_of};
ghost use Rattle.pat_words_spec.specs.Sizes.{size_of};
ghost use Rattle.pat_patterns.specs.Views.{pattern_view};
ghost use Rattle.pat_patterns.specs.residuals.Received.{is_received};

use crate::Pattern;

/// Whether the empty word is a word of the pattern.
pub fn nullable(p: &Pattern) -> bool
    ensures value { result ≡ is_nullable (pattern_view p.now) }
    ensures words { IsTrue result ↔ In (pattern_view p.now) no_word }
{
    has_empty_word(p)
}

fn has_empty_word(p: &Pattern) -> bool
    ensures { result ≡ is_nullable (pattern_view p.now) }
{
    match p {
        Pattern::Zero | Pattern::Tag(_) | Pattern::Var(_) => false,
        Pattern::One | Pattern::Star(_) => true,
        Pattern::Sum(left, right) => has_empty_word(left) || has_empty_word(right),
        Pattern::Prod(left, right) => has_empty_word(left) && has_empty_word(right),
    }
}

/// Whether the pattern has a word.
pub fn inhabited(p: &Pattern) -> bool
    ensures value { result ≡ is_inhabited (pattern_view p.now) }
    ensures words { IsTrue result ↔ ((w : Word) × In (pattern_view p.now) w) }
{
    has_word(p)
}

fn has_word(p: &Pattern) -> bool
    ensures { result ≡ is_inhabited (pattern_view p.now) }
{
    match p {
        Pattern::Zero | Pattern::Var(_) => false,
        Pattern::One | Pattern::Tag(_) | Pattern::Star(_) => true,
        Pattern::Sum(left, right) => has_word(left) || has_word(right),
        Pattern::Prod(left, right) => has_word(left) && has_word(right),
    }
}

/// Whether the clauses of a guard take whatever the pattern lets in: bit `t` of `received` says that a
/// clause receives tag `t`, and `free` that there is a free clause for the empty word.
pub fn covers(p: &Pattern, received: u32, free: bool) -> bool
    ensures value { result ≡ covers_of (pattern_view p.now) (is_received received) free }
    ensures words { IsTrue result ↔ Covers (pattern_view p.now) (is_received received) free }
{
    bare_words(p, received).is_empty && (free || !has_empty_word(p))
}

/// What is known of a pattern's words without a received tag.
#[derive(Clone, Copy)]
struct Bare {
    /// Whether there is one.
    is_there: bool,
    /// Whether each is empty.
    is_empty: bool,
}

fn bare_words(p: &Pattern, received: u32) -> Bare
    ensures there { result.is_there ≡ has_bare (is_received received) (pattern_view p.now) }
    ensures empty { result.is_empty ≡ bare_is_empty (is_received received) (pattern_view p.now) }
{
    match p {
        Pattern::Zero | Pattern::Var(_) => Bare {
            is_there: false,
            is_empty: true,
        },
        Pattern::One => Bare {
            is_there: true,
            is_empty: true,
        },
        Pattern::Tag(tag) => {
            let taken = is_set(received, *tag);
            Bare {
                is_there: !taken,
                is_empty: taken,
            }
        }
        Pattern::Sum(left, right) => {
            let left = bare_words(left, received);
            let right = bare_words(right, received);
            Bare {
                is_there: left.is_there || right.is_there,
                is_empty: left.is_empty && right.is_empty,
            }
        }
        Pattern::Prod(left, right) => {
            let left = bare_words(left, received);
            let right = bare_words(right, received);
            let is_there = left.is_there && right.is_there;
            Bare {
                is_there,
                is_empty: !is_there || (left.is_empty && right.is_empty),
            }
        }
        Pattern::Star(part) => {
            let part = bare_words(part, received);
            Bare {
                is_there: true,
                is_empty: part.is_empty,
            }
        }
    }
}

/// Whether the bit of the tag is set.
fn is_set(received: u32, tag: u8) -> bool
    ensures { result ≡ is_received received tag }
{
    tag < 32 && (received >> tag) % 2 == 1
}

/// Whether the pattern has no variable, and each star in it is of a choice of tags and 1.
pub fn is_flat(p: &Pattern) -> bool
    ensures { result ≡ is_flat_of (pattern_view p.now) }
{
    match p {
        Pattern::Zero | Pattern::One | Pattern::Tag(_) => true,
        Pattern::Var(_) => false,
        Pattern::Sum(left, right) | Pattern::Prod(left, right) => is_flat(left) && is_flat(right),
        Pattern::Star(part) => is_choice(part),
    }
}

fn is_choice(p: &Pattern) -> bool
    ensures { result ≡ is_choice_of (pattern_view p.now) }
{
    match p {
        Pattern::Zero | Pattern::One | Pattern::Tag(_) => true,
        Pattern::Sum(left, right) => is_choice(left) && is_choice(right),
        Pattern::Prod(..) | Pattern::Star(_) | Pattern::Var(_) => false,
    }
}

/// The most messages that a word can have outside of stars.
pub fn degree(p: &Pattern) -> u32
    requires { size_of (pattern_view p.now) < 2 ^ 32 - 1 }
    ensures { result ≡ degree_of (pattern_view p.now) }
{
    match p {
        Pattern::Zero | Pattern::One | Pattern::Var(_) | Pattern::Star(_) => 0,
        Pattern::Tag(_) => 1,
        Pattern::Sum(left, right) => degree(left).max(degree(right)),
        Pattern::Prod(left, right) => degree(left) + degree(right),
    }
}
