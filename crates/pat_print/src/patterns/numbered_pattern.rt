// Patterns over numbered tags, by the names of an interface.
//
// A pattern may be many thousand levels deep, so the recursion keeps its frames small: all that needs room of its own
// stands in functions that it calls from more than one place.
ghost use Rattle.std.specs.Prelude.{◌≡◌, ℕ, List, ◌++◌, ◌∷◌, [], length, slice_index_or, IsTrue, IfOk, OnOk};
ghost use Rattle.std.specs.Fmt.{decimal};
ghost use Rattle.pat_words_spec.specs.Patterns.{Pat, is_closed};
ghost use Rattle.pat_words_spec.specs.Tags.{tags_below};
ghost use Rattle.pat_patterns.specs.Views.{pattern_view};
ghost use Rattle.pat_core.specs.Views.{interface_view};
ghost use Rattle.pat_print_spec.specs.Canonical.{pattern_onto};
ghost use Rattle.pat_print.specs.Parts.{bytes_of};
ghost use Rattle.pat_derivation_text_spec.specs.patterns.PatternText.{opening, closing, enclosed, is_sum, is_sum_or_product, pat_text};
ghost use Rattle.pat_print.specs.patterns.PatternText.{tag_names, written_with};

use pat_core::Interface;
use pat_patterns::Pattern;
use pat_texts::push_number;
use std::alloc::{AllocError, Global};

/// The text of a pattern by the names of the interface's tags, with `$` and its number for a variable, and with brackets
/// only where they are needed.
pub fn pattern_text(
    alloc: Global,
    pattern: &Pattern,
    interface: &Interface,
) -> Result<Vec<u8>, AllocError>
    requires { IsTrue (tags_below (length interface.now.tags) (pattern_view pattern.now)) }
    ensures { IfOk result (λ text. text.items ≡ pat_text (tag_names (interface_view interface.now)) (pattern_view pattern.now)) }
{
    let mut out = Vec::new(alloc);
    put_numbered(alloc, &mut out, pattern, interface, false)?;
    Ok(out)
}

/// Appends the text of a pattern by the names of the interface's tags. A tag that the interface doesn't have adds nothing.
pub fn push_pattern(
    alloc: Global,
    out: &mut Vec<u8>,
    pattern: &Pattern,
    interface: &Interface,
) -> Result<(), AllocError>
    ensures { OnOk result (out.new.items ≡ out.old.items
        ++ pat_text (tag_names (interface_view interface.now)) (pattern_view pattern.now)) }
{
    put_numbered(alloc, out, pattern, interface, false)
}

/// The text of a pattern without variables is that of the pattern as it is written with the names.
pub fn pattern_text_law()
    ensures { (names : List (List ℕ)) (p : Pat) → IsTrue (is_closed p) → pat_text names p ≡ bytes_of (pattern_onto (written_with names p)) }
{}

/// Appends a pattern, in brackets where it needs them.
fn put_numbered(
    alloc: Global,
    out: &mut Vec<u8>,
    pattern: &Pattern,
    interface: &Interface,
    brackets: bool,
) -> Result<(), AllocError>
    ensures { OnOk result (out.new.items ≡ out.old.items
        ++ enclosed brackets (pat_text (tag_names (interface_view interface.now)) (pattern_view pattern.now))) }
{
    put_opening(out, brackets)?;
    match pattern {
        Pattern::Zero => put(out, b"0")?,
        Pattern::One => put(out, b"1")?,
        Pattern::Tag(tag) => put_tag(out, interface, *tag)?,
        Pattern::Var(number) => put_variable(out, *number)?,
        Pattern::Sum(left, right) => {
            put_numbered(alloc, out, left, interface, false)?;
            put(out, b" + ")?;
            put_numbered(alloc, out, right, interface, is_sum(right))?;
        }
        Pattern::Prod(left, right) => {
            put_numbered(alloc, out, left, interface, is_sum(left))?;
            put(out, b".")?;
            put_numbered(alloc, out, right, interface, is_sum_or_product(right))?;
        }
        Pattern::Star(part) => {
            put(out, b"*")?;
            put_numbered(alloc, out, part, interface, is_sum_or_product(part))?;
        }
    }
    put_closing(out, brackets)
}

/// Whether a pattern needs brackets where a product is wanted.
fn is_sum(pattern: &Pattern) -> bool
    ensures { result ≡ is_sum (pattern_view pattern.now) }
{
    matches!(pattern, Pattern::Sum(..))
}

/// Whether a pattern needs brackets where a factor is wanted.
fn is_sum_or_product(pattern: &Pattern) -> bool
    ensures { result ≡ is_sum_or_product (pattern_view pattern.now) }
{
    matches!(pattern, Pattern::Sum(..) | Pattern::Prod(..))
}

#[inline(never)]
fn put(out: &mut Vec<u8>, bytes: &[u8]) -> Result<(), AllocError>
    ensures { OnOk result (out.new.items ≡ out.old.items ++ bytes.now) }
{
    out.extend_from_slice(bytes)
}

fn put_opening(out: &mut Vec<u8>, brackets: bool) -> Result<(), AllocError>
    ensures { OnOk result (out.new.items ≡ out.old.items ++ opening brackets) }
{
    if brackets { put(out, b"(") } else { Ok(()) }
}

fn put_closing(out: &mut Vec<u8>, brackets: bool) -> Result<(), AllocError>
    ensures { OnOk result (out.new.items ≡ out.old.items ++ closing brackets) }
{
    if brackets { put(out, b")") } else { Ok(()) }
}

/// Appends the name of a tag, if the interface has it.
fn put_tag(out: &mut Vec<u8>, interface: &Interface, tag: u8) -> Result<(), AllocError>
    ensures { OnOk result (out.new.items ≡ out.old.items ++ slice_index_or (tag_names (interface_view interface.now)) tag []) }
{
    match interface.tags.as_slice().get(tag as usize) {
        Some(declared) => put(out, declared.name.as_bytes()),
        None => Ok(()),
    }
}

/// Appends a variable: its number behind a dollar sign.
fn put_variable(out: &mut Vec<u8>, number: u32) -> Result<(), AllocError>
    ensures { OnOk result (out.new.items ≡ out.old.items ++ 36 ∷ decimal number) }
{
    put(out, b"$")?;
    push_number(out, u64::from(number))
}
