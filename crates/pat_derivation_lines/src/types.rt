// Types of terms and of variables.
ghost use Rattle.std.specs.Prelude.{◌≡◌, true, option_map};
ghost use Rattle.pat_core.specs.Views.{program_view};
ghost use Rattle.pat_semantics_spec.specs.Programs.{Program};
ghost use Rattle.pat_primitives.specs.Views.{base_view, polarity_view};
ghost use Rattle.pat_types.specs.Views.{usage_view, type_view, result_view, need_view, needs_view};
ghost use Rattle.pat_derivation_text_spec.specs.LineReading as reading;
ghost use Rattle.pat_texts_spec.specs.Joined.{pieces, read_each, then_read};
ghost use Rattle.pat_derivation_lines.specs.patterns.Answers.{Gives};
ghost use Rattle.pat_derivation_lines.specs.patterns.Views.{names_of};
ghost use Rattle.pat_derivation_lines.specs.Views.{mailbox_view, cut_view, used_view};
ghost use Rattle.pat_derivation_lines.specs.Needs.{typed, IsLast, Adds};
ghost use Rattle.pat_texts.specs.Pieces.{pieces_left};

use crate::patterns::{Unread, read_pattern};
use crate::tables::InterfaceNames;
use pat_core::Interface;
use pat_derivations::ascends;
use pat_patterns::Pattern;
use pat_primitives::{Base, Polarity};
use pat_sequences::Sequence;
use pat_texts::{before, behind, cut, first_piece, read_number};
use pat_types::{MailboxType, TypeOf, Usage};
use std::alloc::Global;

/// A mailbox type without its usage.
#[derive(Drop)]
pub struct Mailbox {
    pub interface: u32,
    pub polarity: Polarity,
    pub pattern: Pattern,
}

/// What stands before the first polarity, which, and what behind it.
fn cut_polarity(text: &[u8]) -> Option<(&[u8], Polarity, &[u8])>
    ensures { cut_view result ≡ reading.cut_polarity text.now }
{
    for (i, byte) in text.iter().enumerate() {
        if *byte == b'!' {
            return Some((&text[..i], Polarity::Sending, &text[i + 1..]));
        }
        if *byte == b'?' {
            return Some((&text[..i], Polarity::Receiving, &text[i + 1..]));
        }
    }
    None
}

/// A mailbox type of an interface, from the text of its pattern.
fn mailbox_in(
    alloc: Global,
    interface: u32,
    declared: &Interface,
    polarity: Polarity,
    text: &[u8],
) -> Result<Mailbox, Unread>
    ensures { Gives mailbox_view (reading.mailbox_in (polarity_view polarity) text.now (interface, names_of declared.now.tags)) result }
{
    let pattern = read_pattern(alloc, declared.tags.as_slice(), text)?;
    Ok(Mailbox {
        interface,
        polarity,
        pattern,
    })
}

/// A mailbox type without its usage.
fn read_mailbox(alloc: Global, names: &InterfaceNames, text: &[u8]) -> Result<Mailbox, Unread>
    ensures { Gives mailbox_view (reading.read_mailbox (program_view names.now.program.now) text.now) result }
{
    match cut_polarity(text) {
        Some((name, polarity, more)) => match names.find(name) {
            Some((interface, declared)) => mailbox_in(alloc, interface, declared, polarity, more),
            None => Err(Unread::NotSpelled),
        },
        None => Err(Unread::NotSpelled),
    }
}

fn read_base(text: &[u8]) -> Option<Base>
    ensures { option_map base_view result ≡ reading.read_base text.now }
{
    if text == b"Unit".as_slice() {
        Some(Base::Unit)
    } else if text == b"Bool".as_slice() {
        Some(Base::Bool)
    } else if text == b"Int".as_slice() {
        Some(Base::Int)
    } else if text == b"String".as_slice() {
        Some(Base::Str)
    } else {
        None
    }
}

/// The type of a term.
pub fn read_type(alloc: Global, names: &InterfaceNames, text: &[u8]) -> Result<TypeOf, Unread>
    ensures { Gives result_view (reading.read_type (program_view names.now.program.now) text.now) result }
{
    match read_base(text) {
        Some(base) => Ok(TypeOf::Base(base)),
        None => {
            let mailbox = read_mailbox(alloc, names, text)?;
            Ok(TypeOf::Mailbox {
                interface: mailbox.interface,
                polarity: mailbox.polarity,
                pattern: mailbox.pattern,
            })
        }
    }
}

/// A usage at the end, and what stands before it.
fn cut_usage(text: &[u8]) -> Option<(&[u8], Usage)>
    ensures { used_view result ≡ reading.cut_usage text.now }
{
    match before(text, b" sec") {
        Some(front) => Some((front, Usage::Second)),
        None => match before(text, b" ret") {
            Some(front) => Some((front, Usage::Returnable)),
            None => None,
        },
    }
}

/// A variable's type, behind a space.
fn read_used(alloc: Global, names: &InterfaceNames, text: &[u8]) -> Result<MailboxType, Unread>
    ensures { Gives type_view (reading.read_used (program_view names.now.program.now) text.now) result }
{
    match behind(text, b" ") {
        Some(more) => match cut_usage(more) {
            Some((front, usage)) => {
                let mailbox = read_mailbox(alloc, names, front)?;
                Ok(MailboxType {
                    interface: mailbox.interface,
                    polarity: mailbox.polarity,
                    pattern: mailbox.pattern,
                    usage,
                })
            }
            None => Err(Unread::NotSpelled),
        },
        None => Err(Unread::NotSpelled),
    }
}

/// A variable, and the text of its type.
fn cut_named(text: &[u8]) -> Option<(u32, &[u8])>
    ensures { (p : Program) → reading.read_named p text.now ≡ typed p result }
{
    match behind(text, b"v") {
        Some(more) => match cut(more, b':') {
            Some((own, of)) => match read_number(own) {
                Some(variable) => Some((variable, of)),
                None => None,
            },
            None => None,
        },
        None => None,
    }
}

/// A variable behind a space, and the text of its type.
fn cut_next(text: &[u8]) -> Option<(u32, &[u8])>
    ensures { (p : Program) → reading.read_next p text.now ≡ typed p result }
{
    match behind(text, b" ") {
        Some(more) => cut_named(more),
        None => None,
    }
}

/// A variable's type. Mostly it is spelled as that of the variable before it, and then it is the same.
fn read_like(
    alloc: Global,
    names: &InterfaceNames,
    needs: &[(u32, MailboxType)],
    last: &[u8],
    text: &[u8],
) -> Result<MailboxType, Unread>
    requires { IsLast (program_view names.now.program.now) (needs_view needs.now) last.now }
    ensures { Gives type_view (reading.read_used (program_view names.now.program.now) text.now) result }
{
    match needs.last() {
        Some((_, of)) if are_same(text, last) => {
            let copy = of.copy()?;
            Ok(copy)
        }
        _ => read_used(alloc, names, text),
    }
}

/// Whether the texts are the same. Those of types are short, so they are compared byte by byte.
fn are_same(first: &[u8], second: &[u8]) -> bool
    ensures { result ≡ true → first.now ≡ second.now }
{
    if first.len() != second.len() {
        return false;
    }
    let mut place = 0;
    while place < first.len() {
        if first[place] != second[place] {
            return false;
        }
        place += 1;
    }
    true
}

/// A variable and its type more, if there is one. Gives the text of its type.
fn push_named<'t>(
    alloc: Global,
    names: &InterfaceNames,
    needs: &mut Sequence<(u32, MailboxType)>,
    last: &[u8],
    named: Option<(u32, &'t [u8])>,
) -> Result<&'t [u8], Unread>
    requires { IsLast (program_view names.now.program.now) (needs_view needs.old) last.now }
    ensures { Adds (program_view names.now.program.now) (typed (program_view names.now.program.now) named.entry) (needs_view needs.old) (needs_view needs.new) result }
{
    match named {
        Some((variable, text)) => {
            let of = read_like(alloc, names, needs.as_slice(), last, text)?;
            needs.push((variable, of))?;
            Ok(text)
        }
        None => Err(Unread::NotSpelled),
    }
}

/// The first, and the others behind a space each.
fn read_all(
    alloc: Global,
    names: &InterfaceNames,
    text: &[u8],
) -> Result<Sequence<(u32, MailboxType)>, Unread>
    ensures { Gives needs_view (reading.read_all (program_view names.now.program.now) (pieces 44 text.now)) result }
{
    let mut needs = Sequence::new(alloc);
    let (first, others) = first_piece(text, b',');
    let last = push_named(alloc, names, &mut needs, b"", cut_named(first))?;
    read_others(alloc, names, others, needs, last)
}

/// The others, each behind a space.
fn read_others(
    alloc: Global,
    names: &InterfaceNames,
    others: Option<&[u8]>,
    needs: Sequence<(u32, MailboxType)>,
    last: &[u8],
) -> Result<Sequence<(u32, MailboxType)>, Unread>
    requires { IsLast (program_view names.now.program.now) (needs_view needs) last.now }
    ensures { Gives needs_view (then_read (needs_view needs)
        (read_each (reading.read_next (program_view names.now.program.now)) (pieces_left 44 others.entry))) result }
{
    let mut needs = needs;
    let mut last = last;
    let mut rest = others;
    while let Some(more) = rest {
        let (own, others) = first_piece(more, b',');
        last = push_named(alloc, names, &mut needs, last, cut_next(own))?;
        rest = others;
    }
    Ok(needs)
}

/// The types of variables, with a comma and a space between, in ascending order of variable.
pub fn read_needs(
    alloc: Global,
    names: &InterfaceNames,
    text: &[u8],
) -> Result<Sequence<(u32, MailboxType)>, Unread>
    ensures { Gives needs_view (reading.read_needs (program_view names.now.program.now) text.now) result }
{
    if text.is_empty() {
        return Ok(Sequence::new(alloc));
    }
    let needs = read_all(alloc, names, text)?;
    if ascends(needs.as_slice()) {
        Ok(needs)
    } else {
        Err(Unread::NotSpelled)
    }
}
