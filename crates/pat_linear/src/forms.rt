// The closed form of a pattern.
ghost use Rattle.std.specs.Prelude.{◌≡◌, ◌∷◌, [], ◌<◌, ◌≤◌, ◌↔◌, ◌-◌, ◌^◌, min, length, take, drop, IfOk, OnOk, IsTrue};
ghost use Rattle.std.specs.List.{AllByRecursion};
ghost use Rattle.pat_words_spec.specs.Words.{Word, one};
ghost use Rattle.pat_words_spec.specs.Patterns.{In};
ghost use Rattle.pat_words_spec.specs.Sizes.{size_of};
ghost use Rattle.pat_words_spec.specs.Tags.{tags_below};
ghost use Rattle.pat_patterns.specs.Views.{pattern_view};
ghost use Rattle.pat_inclusion_spec.specs.Counts.{most_tags};
ghost use Rattle.pat_inclusion_spec.specs.LinearSets.{InSets, linear_set};
ghost use Rattle.pat_inclusion_spec.specs.ClosedForms.{only_empty as only_empty_set, is_small as is_small_of, is_short, closed_form as closed_form_of, products as products_of, sets_of, times_stars as times_stars_of, lists_are_short};
ghost use Rattle.pat_linear.specs.Views.{set_view, sets_view, forms_view};
ghost use Rattle.pat_linear.specs.Rooms.{HaveRoom};
ghost use Rattle.pat_linear.specs.Flat.{top_of};
ghost use Rattle.pat_linear.specs.WordSets.{IsWord};
ghost use Rattle.pat_linear.specs.Forms.{GivesForm, GivesSets, GivesTop, Joins, CanJoin};

use crate::along::form_along;
use crate::error::FormError;
use crate::flat::Lists;
use crate::products::products;
use crate::set::LinearSet;
use crate::stars::{only_empty, star, star_of_words};
use pat_bags::Bag;
use pat_limits::{MOST_LEVELS, MOST_NODES, MOST_SETS};
use pat_patterns::{Head, Pattern, levels, postfix, size};
use pat_sequences::Sequence;
use std::alloc::{AllocError, Global};

/// Linear sets whose words, taken together, are the pattern's: its closed form. `TooLarge` is answered for a pattern above
/// 65,536 nodes or 16,384 levels, or where some list on the way grows past 4,096 sets, and for no other.
pub fn closed_form(alloc: Global, p: &Pattern) -> Result<Sequence<LinearSet>, FormError>
    requires { IsTrue (tags_below most_tags (pattern_view p.now)) }
    ensures form { GivesForm result (closed_form_of most_tags (pattern_view p.now)) }
    ensures words { IfOk result (λ sets. (w : Word) → InSets (sets_view sets) w ↔ In (pattern_view p.now) w) }
{
    let nodes = size(p);
    if !is_small(p, nodes) {
        return Err(FormError::TooLarge);
    }
    form_of(alloc, p, nodes as usize)
}

/// Whether the pattern, which has so many nodes, is no larger than what is worked with. It has no more levels than nodes.
fn is_small(p: &Pattern, nodes: u32) -> bool
    requires { nodes ≡ min (size_of (pattern_view p.now)) (2 ^ 32 - 1) }
    ensures { result ≡ is_small_of (pattern_view p.now) }
{
    nodes <= MOST_LEVELS || nodes <= MOST_NODES && levels(p) <= MOST_LEVELS
}

// The sets for which there is room at first: most patterns need no more.
const FEW: usize = 6;

// The form of a pattern with more nodes is made along its right parts.
const FEW_NODES: usize = 64;

// So many levels of a pattern are walked down by calls. What is deeper is made along a list of heads.
const MOST_CALLS: u32 = 64;

/// The closed form of a small pattern with so many nodes.
fn form_of(alloc: Global, p: &Pattern, nodes: usize) -> Result<Sequence<LinearSet>, FormError>
    requires small { IsTrue (is_small_of (pattern_view p.now)) }
    requires tags { IsTrue (tags_below most_tags (pattern_view p.now)) }
    ensures { GivesSets result (lists_are_short most_tags (pattern_view p.now)) (sets_of most_tags (pattern_view p.now)) }
{
    if nodes > FEW_NODES {
        return form_along(alloc, p);
    }
    part_form(alloc, p, nodes.min(FEW))
}

/// The closed form of a small pattern, made of those of its parts, with room for so many sets at first.
pub fn part_form(alloc: Global, p: &Pattern, room: usize) -> Result<Sequence<LinearSet>, FormError>
    requires small { IsTrue (is_small_of (pattern_view p.now)) }
    requires tags { IsTrue (tags_below most_tags (pattern_view p.now)) }
    ensures { GivesSets result (lists_are_short most_tags (pattern_view p.now)) (sets_of most_tags (pattern_view p.now)) }
{
    let mut done = Lists::with_room(alloc, room)?;
    put_form(alloc, p, MOST_CALLS, &mut done)?;
    Ok(done.into_sets())
}

/// Puts the closed form on top, by at most so many calls, one in the other.
fn put_form(alloc: Global, p: &Pattern, calls: u32, done: &mut Lists) -> Result<(), FormError>
    requires small { IsTrue (is_small_of (pattern_view p.now)) }
    requires tags { IsTrue (tags_below most_tags (pattern_view p.now)) }
    ensures { GivesTop result (lists_are_short most_tags (pattern_view p.now)) (sets_of most_tags (pattern_view p.now))
        (forms_view done.old) (forms_view done.new) }
{
    if calls == 0 {
        return put_deep_form(alloc, p, done);
    }
    match p {
        Pattern::Zero | Pattern::Var(_) => {
            done.put_none()?;
            Ok(())
        }
        Pattern::One => {
            done.put_one(only_empty(alloc))?;
            Ok(())
        }
        Pattern::Tag(tag) => {
            done.put_one(only_tag(alloc, *tag))?;
            Ok(())
        }
        Pattern::Sum(left, right) => {
            put_form(alloc, left, calls - 1, done)?;
            put_form(alloc, right, calls - 1, done)?;
            join_sum(done)
        }
        Pattern::Prod(left, right) => {
            put_form(alloc, left, calls - 1, done)?;
            put_form(alloc, right, calls - 1, done)?;
            join_product(alloc, done)
        }
        Pattern::Star(part) => {
            put_form(alloc, part, calls - 1, done)?;
            join_star(alloc, done)
        }
    }
}

/// Puts the closed form on top, however deep the pattern is.
fn put_deep_form(alloc: Global, p: &Pattern, done: &mut Lists) -> Result<(), FormError>
    requires small { IsTrue (is_small_of (pattern_view p.now)) }
    requires tags { IsTrue (tags_below most_tags (pattern_view p.now)) }
    ensures { GivesTop result (lists_are_short most_tags (pattern_view p.now)) (sets_of most_tags (pattern_view p.now))
        (forms_view done.old) (forms_view done.new) }
{
    let sets = deep_form(alloc, p)?;
    done.put(sets)?;
    Ok(())
}

/// The closed form along the pattern's heads.
fn deep_form(alloc: Global, p: &Pattern) -> Result<Sequence<LinearSet>, FormError>
    requires small { IsTrue (is_small_of (pattern_view p.now)) }
    requires tags { IsTrue (tags_below most_tags (pattern_view p.now)) }
    ensures { GivesSets result (lists_are_short most_tags (pattern_view p.now)) (sets_of most_tags (pattern_view p.now)) }
{
    let mut heads = postfix(alloc, p)?;
    let mut done = Lists::with_room(alloc, heads.len().min(FEW))?;
    while let Some(head) = heads.pop() {
        join(alloc, head, &mut done)?;
    }
    Ok(done.into_sets())
}

/// The forms of a head's parts, which are on top, give way to that of the whole.
fn join(alloc: Global, head: Head, done: &mut Lists) -> Result<(), FormError>
    requires { CanJoin most_tags head (forms_view done.old) }
    ensures { Joins most_tags head result (forms_view done.old) (forms_view done.new) }
{
    match head {
        Head::Zero | Head::Var(_) => {
            done.put_none()?;
            Ok(())
        }
        Head::One => {
            done.put_one(only_empty(alloc))?;
            Ok(())
        }
        Head::Tag(tag) => {
            done.put_one(only_tag(alloc, tag))?;
            Ok(())
        }
        Head::Sum => join_sum(done),
        Head::Prod => join_product(alloc, done),
        Head::Star => join_star(alloc, done),
    }
}

/// The word of the tag alone.
fn only_tag(alloc: Global, tag: u8) -> LinearSet
    requires { tag < 32 }
    ensures { set_view result ≡ linear_set (one tag) [] }
{
    LinearSet {
        base: Bag::one(tag),
        periods: Sequence::new(alloc),
    }
}

fn join_sum(done: &mut Lists) -> Result<(), FormError>
    requires { 2 ≤ length (forms_view done.old) }
    ensures { Joins most_tags Head.Sum result (forms_view done.old) (forms_view done.new) }
{
    done.unite();
    if done.top().len() > MOST_SETS {
        return Err(FormError::TooLarge);
    }
    Ok(())
}

fn join_product(alloc: Global, done: &mut Lists) -> Result<(), FormError>
    requires { CanJoin most_tags Head.Prod (forms_view done.old) }
    ensures { Joins most_tags Head.Prod result (forms_view done.old) (forms_view done.new) }
{
    let lower = done.unite();
    multiply(alloc, lower, done)
}

/// The list on top gives way to the products of so many of its sets with the others. Mostly that is one.
fn multiply(alloc: Global, lower: usize, done: &mut Lists) -> Result<(), FormError>
    requires there { 1 ≤ length done.old }
    requires lower { lower ≤ length (top_of done.old) }
    requires room { HaveRoom (sets_view (take lower (top_of done.old))) (sets_view (drop lower (top_of done.old))) }
    ensures { let made = products_of most_tags (sets_view (take lower (top_of done.old))) (sets_view (drop lower (top_of done.old))) in
        GivesTop result (is_short made) made (forms_view (drop 1 done.old)) (forms_view done.new) }
{
    let all = done.top();
    if lower == 1 && all.len() <= MOST_SETS {
        multiply_by_first(alloc, done)?;
        return Ok(());
    }
    let (left, right) = all.split_at(lower);
    let made = products(alloc, left, right)?;
    done.replace(made)?;
    Ok(())
}

/// The list on top gives way to the products of its first set with each of the others.
fn multiply_by_first(alloc: Global, done: &mut Lists) -> Result<(), AllocError>
    requires some { 1 ≤ length (top_of done.old) }
    requires room { HaveRoom (sets_view (take 1 (top_of done.old))) (sets_view (drop 1 (top_of done.old))) }
    ensures { OnOk result (forms_view done.new
        ≡ products_of most_tags (sets_view (take 1 (top_of done.old))) (sets_view (drop 1 (top_of done.old)))
        ∷ forms_view (drop 1 done.old)) }
{
    let first = done.take_first();
    done.multiply_each(alloc, &first)
}

fn join_star(alloc: Global, done: &mut Lists) -> Result<(), FormError>
    requires { CanJoin most_tags Head.Star (forms_view done.old) }
    ensures { Joins most_tags Head.Star result (forms_view done.old) (forms_view done.new) }
{
    if are_words(done.top()) {
        repeat_words(alloc, done)?;
        return Ok(());
    }
    let form = star(alloc, done.top())?;
    done.replace(form)?;
    Ok(())
}

/// Whether no set has periods.
fn are_words(sets: &[LinearSet]) -> bool
    ensures { IsTrue result → AllByRecursion IsWord (sets_view sets.now) }
{
    for set in sets {
        if !is_word(set) {
            return false;
        }
    }
    true
}

/// Whether the set has no periods.
fn is_word(set: &LinearSet) -> bool
    ensures { IsTrue result → IsWord (set_view set.now) }
{
    set.periods.is_empty()
}

/// The sets on top, which have no periods, give way to their star: that is one set.
fn repeat_words(alloc: Global, done: &mut Lists) -> Result<(), AllocError>
    requires there { 1 ≤ length done.old }
    requires words { AllByRecursion IsWord (sets_view (top_of done.old)) }
    ensures { OnOk result (forms_view done.new ≡ times_stars_of most_tags (only_empty_set ∷ []) (sets_view (top_of done.old))
        ∷ forms_view (drop 1 done.old)) }
{
    let star = star_of_words(alloc, done.top())?;
    done.empty_top();
    done.push(star)
}
