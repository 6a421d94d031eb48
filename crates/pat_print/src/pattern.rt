// Patterns and types as they are written.
ghost use Rattle.std.specs.Prelude.{◌≡◌, ◌++◌, option_map, OnOk};
ghost use Rattle.pat_lexer_spec.specs.Words.{word_bytes};
ghost use Rattle.pat_lexer_spec.specs.Marks.{mark_bytes};
ghost use Rattle.pat_print_spec.specs.Canonical.{bracketed, opens_factor, opens_sum_pattern, pattern_onto, written_onto, type_onto, base_word, polarity_mark};
ghost use Rattle.pat_primitives.specs.Views.{base_view, polarity_view};
ghost use Rattle.pat_tree.specs.Views.{pattern_view, type_view};
ghost use Rattle.pat_print.specs.Parts.{bytes_of};

use crate::atoms::put_name;
use crate::list::Entry;
use pat_primitives::{Base, Polarity};
use pat_tree::{TreePattern, TreeType};
use std::alloc::{AllocError, Global};

/// Appends a pattern.
#[cycle(pattern)]
#[tactic(auto, using(crate::proofs::Lines::sum_is, crate::proofs::Lines::prod_is, crate::proofs::Lines::star_is, crate::proofs::Lines::zero_is, crate::proofs::Lines::one_is))]
pub fn put_pattern(out: &mut Vec<u8>, pattern: &TreePattern) -> Result<(), AllocError>
    ensures { OnOk result (out.new.items ≡ out.old.items ++ bytes_of (pattern_onto (pattern_view pattern.now))) }
{
    match pattern {
        TreePattern::Zero(_) => out.extend_from_slice(b"0"),
        TreePattern::One(_) => out.extend_from_slice(b"1"),
        TreePattern::Tag(name) => put_name(out, name),
        TreePattern::Sum(left, right) => {
            put_pattern(out, left)?;
            out.extend_from_slice(b" + ")?;
            put_part(out, right, is_sum(right))
        }
        TreePattern::Prod(left, right) => {
            put_part(out, left, is_sum(left))?;
            out.extend_from_slice(b".")?;
            put_part(out, right, is_sum_or_product(right))
        }
        TreePattern::Star(part) => {
            out.extend_from_slice(b"*")?;
            put_part(out, part, is_sum_or_product(part))
        }
    }
}

/// Appends a part of a pattern, in brackets where it needs them.
#[cycle(pattern)]
#[tactic(auto, using(crate::proofs::Lines::part_is))]
fn put_part(out: &mut Vec<u8>, part: &TreePattern, brackets: bool) -> Result<(), AllocError>
    ensures { OnOk result (out.new.items ≡ out.old.items ++ bytes_of (bracketed brackets (pattern_onto (pattern_view part.now)))) }
{
    if !brackets {
        return put_pattern(out, part);
    }
    out.push(b'(')?;
    put_pattern(out, part)?;
    out.push(b')')?;
    Ok(())
}

/// Whether a pattern needs brackets where a product is wanted.
fn is_sum(pattern: &TreePattern) -> bool
    ensures { result ≡ opens_sum_pattern (pattern_view pattern.now) }
{
    matches!(pattern, TreePattern::Sum(..))
}

/// Whether a pattern needs brackets where a factor is wanted.
fn is_sum_or_product(pattern: &TreePattern) -> bool
    ensures { result ≡ opens_factor (pattern_view pattern.now) }
{
    matches!(pattern, TreePattern::Sum(..) | TreePattern::Prod(..))
}

/// Appends a type.
#[tactic(auto, using(crate::proofs::Lines::mailbox_is))]
pub fn put_type(out: &mut Vec<u8>, written: &TreeType) -> Result<(), AllocError>
    ensures { OnOk result (out.new.items ≡ out.old.items ++ bytes_of (type_onto (type_view written.now))) }
{
    match written {
        TreeType::Base(base, _) => out.extend_from_slice(base_text(*base)),
        TreeType::Mailbox {
            name,
            polarity,
            pattern,
            ..
        } => {
            put_name(out, name)?;
            out.extend_from_slice(polarity_text(*polarity))?;
            put_written(out, pattern)
        }
    }
}

/// Appends the pattern of a type, where it has one.
fn put_written(out: &mut Vec<u8>, pattern: &Option<TreePattern>) -> Result<(), AllocError>
    ensures { OnOk result (out.new.items ≡ out.old.items ++ bytes_of (written_onto (option_map pattern_view pattern.now))) }
{
    match pattern {
        Some(pattern) => put_pattern(out, pattern),
        None => Ok(()),
    }
}

fn base_text(base: Base) -> &'static [u8]
    ensures { result.now ≡ word_bytes (base_word (base_view base)) }
{
    match base {
        Base::Unit => b"Unit",
        Base::Bool => b"Bool",
        Base::Int => b"Int",
        Base::Str => b"String",
    }
}

fn polarity_text(polarity: Polarity) -> &'static [u8]
    ensures { result.now ≡ mark_bytes (polarity_mark (polarity_view polarity)) }
{
    match polarity {
        Polarity::Sending => b"!",
        Polarity::Receiving => b"?",
    }
}

impl Entry for TreeType {
    ghost text = { λ a. bytes_of (type_onto (type_view a)) };

    fn put(&self, _alloc: Global, out: &mut Vec<u8>) -> Result<(), AllocError> {
        put_type(out, self)
    }
}
