// Whether a word is a word of a pattern: the words of each part that lie in it are listed.
ghost use Rattle.std.specs.Prelude.{◌≡◌, ◌≤◌, ◌∷◌, ◌↔◌, length, IsTrue, IfOk, OnOk};
ghost use Rattle.pat_words_spec.specs.Words.{Word};
ghost use Rattle.pat_words_spec.specs.Patterns.{In, Pat};
ghost use Rattle.pat_bags.specs.Views.{word_of};
ghost use Rattle.pat_patterns.specs.Views.{pattern_view};
ghost use Rattle.pat_refutations.specs.membership.Listings.{ListsWords, PutsWords, JoinsTwo, JoinsOne, JoinsParts, parts_of, Within};
ghost use Rattle.pat_words_spec.specs.Languages.{EitherOf, SumOf, StarOf};

use crate::membership::word_lists::{finite_sums, holds, push_all, sums};
use pat_bags::Bag;
use pat_patterns::Pattern;
use pat_sequences::{Sequence, Stack};
use std::alloc::{AllocError, Global};

/// Whether the bag's word is a word of the pattern. The call lists the words of each part that lie in
/// the word, so time and memory go with their number.
pub fn is_listed(alloc: Global, p: &Pattern, word: &Bag) -> Result<bool, AllocError>
    ensures { IfOk result (λ yes. IsTrue yes ↔ In (pattern_view p.now) (word_of word.now)) }
{
    let mut done = Stack::new(alloc);
    words_onto(alloc, p, word, &mut done)?;
    let words = take_words(&mut done);
    Ok(holds(words.as_slice(), word))
}

/// Puts the list of the pattern's words that lie in the limit on the stack.
fn words_onto(
    alloc: Global,
    p: &Pattern,
    limit: &Bag,
    done: &mut Stack<Sequence<Bag>>,
) -> Result<(), AllocError>
    ensures { OnOk result (PutsWords done.old done.new (pattern_view p.now) (word_of limit.now)) }
{
    match p {
        Pattern::Zero | Pattern::One | Pattern::Tag(_) | Pattern::Var(_) => join_parts(
            alloc, p, limit, done,
        ),
        Pattern::Sum(left, right) | Pattern::Prod(left, right) => {
            words_onto(alloc, left, limit, done)?;
            words_onto(alloc, right, limit, done)?;
            join_parts(alloc, p, limit, done)
        }
        Pattern::Star(part) => {
            words_onto(alloc, part, limit, done)?;
            join_parts(alloc, p, limit, done)
        }
    }
}

/// The lists of the pattern's parts, which are on top, give way to that of the pattern. All that needs
/// room for bags stands here, out of the recursion.
#[inline(never)]
fn join_parts(
    alloc: Global,
    p: &Pattern,
    limit: &Bag,
    done: &mut Stack<Sequence<Bag>>,
) -> Result<(), AllocError>
    requires { parts_of (pattern_view p.now) ≤ length done.old }
    ensures { OnOk result (JoinsParts (pattern_view p.now) (word_of limit.now) done.old done.new) }
{
    match p {
        Pattern::Zero | Pattern::Var(_) => done.push(Sequence::new(alloc)),
        Pattern::One => push_empty_word(alloc, limit, done),
        Pattern::Tag(tag) => push_tag_word(alloc, *tag, limit, done),
        Pattern::Sum(..) => join_sum(alloc, done),
        Pattern::Prod(..) => join_product(alloc, limit, done),
        Pattern::Star(_) => join_star(alloc, limit, done),
    }
}

fn push_empty_word(
    alloc: Global,
    limit: &Bag,
    done: &mut Stack<Sequence<Bag>>,
) -> Result<(), AllocError>
    ensures { OnOk result (PutsWords done.old done.new Pat.One (word_of limit.now)) }
{
    let mut words = Sequence::new(alloc);
    words.push(Bag::empty())?;
    done.push(words)
}

fn push_tag_word(
    alloc: Global,
    tag: u8,
    limit: &Bag,
    done: &mut Stack<Sequence<Bag>>,
) -> Result<(), AllocError>
    ensures { OnOk result (PutsWords done.old done.new (Pat.Tag tag) (word_of limit.now)) }
{
    let words = tag_words(alloc, tag, limit)?;
    done.push(words)
}

/// The word of the tag, where it lies in the limit.
fn tag_words(alloc: Global, tag: u8, limit: &Bag) -> Result<Sequence<Bag>, AllocError>
    ensures { IfOk result (λ words. ListsWords words (Pat.Tag tag) (word_of limit.now)) }
{
    let mut words = Sequence::new(alloc);
    if limit.get(tag) == 0 {
        return Ok(words);
    }
    words.push(Bag::one(tag))?;
    Ok(words)
}

/// Takes the list on top.
fn take_words(done: &mut Stack<Sequence<Bag>>) -> Sequence<Bag>
    requires { 1 ≤ length done.old }
    ensures { done.old ≡ result ∷ done.new }
{
    match done.pop() {
        Some(top) => top,
        None => unreachable!(),
    }
}

fn join_sum(alloc: Global, done: &mut Stack<Sequence<Bag>>) -> Result<(), AllocError>
    requires { 2 ≤ length done.old }
    ensures { OnOk result (JoinsTwo EitherOf done.old done.new) }
{
    let right = take_words(done);
    let mut left = take_words(done);
    push_all(alloc, &mut left, right.as_slice())?;
    done.push(left)
}

fn join_product(
    alloc: Global,
    limit: &Bag,
    done: &mut Stack<Sequence<Bag>>,
) -> Result<(), AllocError>
    requires { 2 ≤ length done.old }
    ensures { OnOk result (JoinsTwo (λ L M. Within (word_of limit.now) (SumOf L M)) done.old done.new) }
{
    let right = take_words(done);
    let left = take_words(done);
    let words = sums(alloc, left.as_slice(), right.as_slice(), limit)?;
    done.push(words)
}

fn join_star(alloc: Global, limit: &Bag, done: &mut Stack<Sequence<Bag>>) -> Result<(), AllocError>
    requires { 1 ≤ length done.old }
    ensures { OnOk result (JoinsOne (λ L. Within (word_of limit.now) (StarOf L)) done.old done.new) }
{
    let part = take_words(done);
    let words = finite_sums(alloc, part.as_slice(), limit)?;
    done.push(words)
}
