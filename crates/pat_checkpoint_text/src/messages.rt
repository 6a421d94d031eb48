// Lines of messages.
ghost use Rattle.std.specs.Prelude.{◌≡◌, option_and_then};
ghost use Rattle.pat_checkpoint_spec.specs.text.CheckpointText.{interface_in};
ghost use Rattle.pat_checkpoint_spec.specs.text.LineReading as reading;
ghost use Rattle.pat_checkpoint_spec.specs.text.Lines.{Lines};
ghost use Rattle.pat_checkpoint_text.specs.Gathered.{Gathers};
ghost use Rattle.pat_core.specs.Views.{program_view};
ghost use Rattle.pat_derivation_lines.specs.patterns.Answers.{Gives};
ghost use Rattle.pat_derivation_lines.specs.patterns.Views.{names_of};
ghost use Rattle.pat_derivation_text_spec.specs.DerivationText.{tag_names};
ghost use Rattle.pat_reduce.specs.threads.ThreadViews.{message_view};
ghost use Rattle.pat_texts_spec.specs.Joined.{cut as cut_of};

use crate::mailboxes::interface_of;
use crate::values::read_values;
use pat_checkpoint_data::Checkpoint;
use pat_core::{Program, TagDecl};
use pat_derivation_lines::{Unread, number_of, place_of};
use pat_reduce::Message;
use pat_texts::{before, cut};
use std::alloc::Global;

/// The tags of an interface; none of one that the program doesn't have.
fn tags_in(program: &Program, interface: u32) -> &[TagDecl]
    ensures { names_of result.now ≡ tag_names (program_view program.now) interface }
{
    match program.interfaces.as_slice().get(interface as usize) {
        Some(declared) => declared.tags.as_slice(),
        None => &[],
    }
}

/// The tag of this name, of an interface.
fn tag_of(program: &Program, name: &[u8], interface: u32) -> Option<u8>
    ensures { result ≡ reading.tag_of (program_view program.now) name.now interface }
{
    match place_of(tags_in(program, interface), name) {
        Some(place) if place < 256 => Some(place as u8),
        _ => None,
    }
}

/// A message with its payload, up to the closing bracket.
fn message_with(
    alloc: Global,
    number: u32,
    mailbox: u32,
    tag: u8,
    text: &[u8],
) -> Result<Message, Unread>
    ensures { Gives message_view (reading.message_with number mailbox tag text.now) result }
{
    match before(text, b")") {
        Some(inner) => {
            let values = read_values(alloc, inner)?;
            Ok(Message {
                number,
                mailbox,
                tag,
                values,
            })
        }
        None => Err(Unread::NotSpelled),
    }
}

/// The tag before a bracket, of a mailbox that has a line.
fn tag_in(program: &Program, x: &Checkpoint, mailbox: u32, name: &[u8]) -> Option<u8>
    ensures { (lines : Lines) → Gathers lines x.now
        → result ≡ option_and_then (reading.tag_of (program_view program.now) name.now) (interface_in lines.mailboxes mailbox) }
{
    match interface_of(x, mailbox) {
        Some(interface) => tag_of(program, name, interface),
        None => None,
    }
}

/// The tag before a bracket, of a mailbox that has a line, and the payload behind it.
fn message_tagged(
    alloc: Global,
    number: u32,
    mailbox: u32,
    tag: Option<u8>,
    text: &[u8],
) -> Result<Message, Unread>
    ensures { Gives message_view (option_and_then (λ t. reading.message_with number mailbox t text.now) tag) result }
{
    match tag {
        Some(tag) => message_with(alloc, number, mailbox, tag, text),
        None => Err(Unread::NotSpelled),
    }
}

/// A message behind its number.
fn message_in(
    alloc: Global,
    program: &Program,
    x: &Checkpoint,
    number: u32,
    text: &[u8],
) -> Result<Message, Unread>
    ensures { (lines : Lines) → Gathers lines x.now
        → Gives message_view (option_and_then (reading.message_in (program_view program.now) lines.mailboxes number)
        (cut_of 32 text.now)) result }
{
    match cut(text, b' ') {
        Some((own, more)) => {
            let mailbox = number_of(own)?;
            match cut(more, b'(') {
                Some((name, payload)) => {
                    let tag = tag_in(program, x, mailbox, name);
                    message_tagged(alloc, number, mailbox, tag, payload)
                }
                None => Err(Unread::NotSpelled),
            }
        }
        None => Err(Unread::NotSpelled),
    }
}

/// A message, behind its word, to one of the mailboxes that have a line.
pub fn read_message(
    alloc: Global,
    program: &Program,
    x: &Checkpoint,
    text: &[u8],
) -> Result<Message, Unread>
    ensures { (lines : Lines) → Gathers lines x.now
        → Gives message_view (reading.read_message (program_view program.now) lines.mailboxes text.now) result }
{
    match cut(text, b' ') {
        Some((own, more)) => {
            let number = number_of(own)?;
            message_in(alloc, program, x, number, more)
        }
        None => Err(Unread::NotSpelled),
    }
}
