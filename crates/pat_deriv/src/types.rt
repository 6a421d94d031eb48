// Types and values.
ghost use Rattle.std.specs.Prelude.{◌≡◌, ◌++◌, ◌∷◌, [], OnOk, map, take, length};
ghost use Rattle.std.specs.List.{flat_map};
ghost use Rattle.pat_patterns.specs.Views.{pattern_view};
ghost use Rattle.pat_core.specs.Views.{program_view, interface_view};
ghost use Rattle.pat_primitives.specs.Views.{base_view, polarity_view};
ghost use Rattle.pat_types.specs.Views.{usage_view, result_view, need_view, needs_view};
ghost use Rattle.pat_derivations.specs.Views.{counts_of, value_view};
ghost use Rattle.pat_derivation_text_spec.specs.DerivationText.{base_word, polarity_mark, mailbox_text, type_text, usage_word, named_text, needs_text, interface_name, tag_names, numbers_text, point_text, value_text, var_body};
ghost use Rattle.pat_derivation_text_spec.specs.patterns.PatternText.{pat_text};
ghost use Rattle.pat_print.specs.patterns.PatternText as print;

use crate::pieces::{put, put_number, put_numbers};
use pat_bags::{Bag, TAGS};
use pat_core::{Interface, Program};
use pat_derivations::VarValue;
use pat_patterns::Pattern;
use pat_primitives::{Base, Polarity};
use pat_print::push_pattern;
use pat_sequences::{Sequence, Text};
use pat_types::{MailboxType, TypeOf, Usage};
use std::alloc::{AllocError, Global};

/// An interface without a name and without tags. It takes no memory.
fn no_interface(alloc: Global) -> Interface
    ensures name { result.name ≡ [] }
    ensures tags { result.tags ≡ [] }
{
    Interface {
        name: Text::empty(),
        tags: Sequence::new(alloc),
    }
}

fn mark_of(polarity: Polarity) -> u8
    ensures { result ≡ polarity_mark (polarity_view polarity) }
{
    match polarity {
        Polarity::Sending => b'!',
        Polarity::Receiving => b'?',
    }
}

/// A mailbox type of an interface without its usage.
fn put_mailbox_of(
    alloc: Global,
    out: &mut Vec<u8>,
    interface: &Interface,
    polarity: Polarity,
    pattern: &Pattern,
) -> Result<(), AllocError>
    ensures { OnOk result (out.new.items ≡ out.old.items
        ++ (interface.now.name ++ polarity_mark (polarity_view polarity)
        ∷ pat_text (print.tag_names (interface_view interface.now)) (pattern_view pattern.now))) }
{
    put(out, interface.name.as_bytes())?;
    out.push(mark_of(polarity))?;
    push_pattern(alloc, out, pattern, interface)
}

/// A mailbox type without its usage.
fn put_mailbox(
    alloc: Global,
    out: &mut Vec<u8>,
    program: &Program,
    number: u32,
    polarity: Polarity,
    pattern: &Pattern,
) -> Result<(), AllocError>
    ensures { OnOk result (out.new.items ≡ out.old.items
        ++ mailbox_text (program_view program.now) number (polarity_view polarity) (pattern_view pattern.now)) }
{
    let interfaces = program.interfaces.as_slice();
    let place = number as usize;
    if place < interfaces.len() {
        put_mailbox_of(alloc, out, &interfaces[place], polarity, pattern)
    } else {
        put_mailbox_of(alloc, out, &no_interface(alloc), polarity, pattern)
    }
}

fn word_of_base(base: Base) -> &'static [u8]
    ensures { result.now ≡ base_word (base_view base) }
{
    match base {
        Base::Unit => b"Unit",
        Base::Bool => b"Bool",
        Base::Int => b"Int",
        Base::Str => b"String",
    }
}

/// The type of a term.
pub fn put_type(
    alloc: Global,
    out: &mut Vec<u8>,
    program: &Program,
    of: &TypeOf,
) -> Result<(), AllocError>
    ensures { OnOk result (out.new.items ≡ out.old.items ++ type_text (program_view program.now) (result_view of.now)) }
{
    match of {
        TypeOf::Base(base) => put(out, word_of_base(*base)),
        TypeOf::Mailbox {
            interface,
            polarity,
            pattern,
        } => put_mailbox(alloc, out, program, *interface, *polarity, pattern),
    }
}

fn word_of_usage(usage: Usage) -> &'static [u8]
    ensures { result.now ≡ usage_word (usage_view usage) }
{
    match usage {
        Usage::Second => b" sec",
        Usage::Returnable => b" ret",
    }
}

/// A variable and its type.
fn put_named(
    alloc: Global,
    out: &mut Vec<u8>,
    program: &Program,
    variable: u32,
    of: &MailboxType,
) -> Result<(), AllocError>
    ensures { OnOk result (out.new.items ≡ out.old.items ++ named_text (program_view program.now) (need_view (variable, of.now))) }
{
    out.push(b'v')?;
    put_number(out, variable)?;
    put(out, b": ")?;
    put_mailbox(alloc, out, program, of.interface, of.polarity, &of.pattern)?;
    put(out, word_of_usage(of.usage))
}

/// Variables and their types, each behind a comma and a space.
fn put_more_named(
    alloc: Global,
    out: &mut Vec<u8>,
    program: &Program,
    needs: &[(u32, MailboxType)],
) -> Result<(), AllocError>
    ensures { OnOk result (out.new.items ≡ out.old.items
        ++ flat_map (λ y. 44 ∷ y) (map (λ f. 32 ∷ named_text (program_view program.now) f) (needs_view needs.now))) }
{
    for (variable, of) in needs {
        put(out, b", ")?;
        put_named(alloc, out, program, *variable, of)?;
    }
    Ok(())
}

/// Variables and their types, with a comma and a space between.
pub fn put_needs(
    alloc: Global,
    out: &mut Vec<u8>,
    program: &Program,
    needs: &[(u32, MailboxType)],
) -> Result<(), AllocError>
    ensures { OnOk result (out.new.items ≡ out.old.items ++ needs_text (program_view program.now) (needs_view needs.now)) }
{
    match needs {
        [] => Ok(()),
        [(variable, of), more @ ..] => {
            put_named(alloc, out, program, *variable, of)?;
            put_more_named(alloc, out, program, more)
        }
    }
}

/// A point, by its counts of the first `tags` tags.
fn put_point(out: &mut Vec<u8>, tags: usize, point: &Bag) -> Result<(), AllocError>
    ensures { OnOk result (out.new.items ≡ out.old.items ++ point_text tags (counts_of point.now)) }
{
    if tags < TAGS {
        put_numbers(out, &point.counts[..tags])
    } else {
        put_numbers(out, point.counts.as_slice())
    }
}

/// Points, each behind a space.
fn put_points(out: &mut Vec<u8>, tags: usize, points: &[Bag]) -> Result<(), AllocError>
    ensures { OnOk result (out.new.items ≡ out.old.items ++ flat_map (λ q. 32 ∷ point_text tags q) (map counts_of points.now)) }
{
    for point in points {
        out.push(b' ')?;
        put_point(out, tags, point)?;
    }
    Ok(())
}

/// A value of a variable of an interface.
fn put_value(
    alloc: Global,
    out: &mut Vec<u8>,
    interface: &Interface,
    value: &VarValue,
) -> Result<(), AllocError>
    ensures { OnOk result (out.new.items ≡ out.old.items
        ++ value_text (print.tag_names (interface_view interface.now)) (value_view value.now)) }
{
    match value {
        VarValue::Pattern(pattern) => push_pattern(alloc, out, pattern, interface),
        VarValue::Grid { k, points } => {
            out.push(b'@')?;
            put_number(out, *k)?;
            put_points(out, interface.tags.len(), points.as_slice())
        }
    }
}

/// The name of an interface, and a value of a variable of it.
fn put_var_of(
    alloc: Global,
    out: &mut Vec<u8>,
    interface: &Interface,
    value: &VarValue,
) -> Result<(), AllocError>
    ensures { OnOk result (out.new.items ≡ out.old.items
        ++ (interface.now.name ++ 32 ∷ value_text (print.tag_names (interface_view interface.now)) (value_view value.now))) }
{
    put(out, interface.name.as_bytes())?;
    out.push(b' ')?;
    put_value(alloc, out, interface, value)
}

/// The name of a variable's interface, and its value.
pub fn put_var(
    alloc: Global,
    out: &mut Vec<u8>,
    program: &Program,
    number: u32,
    value: &VarValue,
) -> Result<(), AllocError>
    ensures { OnOk result (out.new.items ≡ out.old.items ++ var_body (program_view program.now) number (value_view value.now)) }
{
    let interfaces = program.interfaces.as_slice();
    let place = number as usize;
    if place < interfaces.len() {
        put_var_of(alloc, out, &interfaces[place], value)
    } else {
        put_var_of(alloc, out, &no_interface(alloc), value)
    }
}
