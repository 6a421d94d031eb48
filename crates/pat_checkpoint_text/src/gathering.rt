// What the lines so far say, with one line more. Each is put where the checkpoint has it, so nothing is moved at the end.
ghost use Rattle.std.specs.Prelude.{◌≡◌, ◌∷◌, ◌<◌, OnOk, IfOk, length, map};
ghost use Rattle.pat_checkpoint_spec.specs.text.LineReading as reading;
ghost use Rattle.pat_checkpoint_spec.specs.text.Lines.{Lines};
ghost use Rattle.pat_checkpoint_text.specs.Gathered.{Gathers, Grows, Turns, with_mailbox, with_thread, with_frame, with_cert};
ghost use Rattle.pat_checkpoint_text.specs.Views.{next_view};
ghost use Rattle.pat_core.specs.Views.{program_view};
ghost use Rattle.pat_limits.specs.Limits.{number_count};

use crate::heads::NextNumbers;
use crate::mailboxes::{MailboxLine, read_mailbox};
use crate::messages::read_message;
use crate::threads::{FrameLine, ThreadLine, read_frame, read_thread};
use pat_checkpoint_data::{Checkpoint, PartCerts};
use pat_core::Program;
use pat_derivation_lines::Unread;
use pat_derivations::Cert;
use pat_reduce::{Config, Frame, Message, ThreadState};
use pat_sequences::{Sequence, Stack};
use pat_texts::behind;
use std::alloc::{AllocError, Global};

/// The checkpoint of these next numbers, and nothing behind them.
pub fn start(alloc: Global, next: NextNumbers) -> Checkpoint
    ensures { Gathers (next_view next) result }
{
    Checkpoint {
        config: Config {
            threads: Sequence::new(alloc),
            messages: Sequence::new(alloc),
            live: Sequence::new(alloc),
            printed: Sequence::new(alloc),
            next_thread: next.thread,
            next_mailbox: next.mailbox,
            next_message: next.message,
        },
        interfaces: Sequence::new(alloc),
        mailbox_certs: Sequence::new(alloc),
        part_certs: Sequence::new(alloc),
    }
}

/// Whether the number is above the last.
fn is_next(numbers: &[u32], number: u32) -> bool
    ensures { result ≡ reading.is_next numbers.now number }
{
    match numbers {
        [] => true,
        [.., last] => *last < number,
    }
}

/// Whether the number is above the last message's.
fn is_next_message(messages: &[Message], number: u32) -> bool
    ensures { result ≡ reading.is_next (map (λ m. m.number) messages.now) number }
{
    match messages {
        [] => true,
        [.., last] => last.number < number,
    }
}

/// Whether the number is above the last thread's.
fn is_next_thread(threads: &[(u32, ThreadState)], number: u32) -> bool
    ensures { result ≡ reading.is_next (map (λ e. e.0) threads.now) number }
{
    match threads {
        [] => true,
        [.., last] => last.0 < number,
    }
}

fn push_mailbox(x: &mut Checkpoint, line: MailboxLine) -> Result<(), AllocError>
    ensures { OnOk result (x.new ≡ with_mailbox x.old line) }
{
    x.config.live.push(line.number)?;
    x.interfaces.push(line.interface)?;
    x.mailbox_certs.push(line.cert)
}

/// A mailbox more, as long as there is no message and no thread.
fn add_mailbox(
    alloc: Global,
    program: &Program,
    x: &mut Checkpoint,
    text: &[u8],
) -> Result<(), Unread>
    requires { length program.now.interfaces < number_count }
    ensures { (lines : Lines) → Gathers lines x.old → Grows (reading.with_mailbox (program_view program.now) lines text.now) x.new result }
{
    if !x.config.messages.is_empty() {
        return Err(Unread::NotSpelled);
    }
    if !x.config.threads.is_empty() {
        return Err(Unread::NotSpelled);
    }
    let line = read_mailbox(alloc, program, text)?;
    if !is_next(x.config.live.as_slice(), line.number) {
        return Err(Unread::NotSpelled);
    }
    push_mailbox(x, line)?;
    Ok(())
}

/// A message more, as long as there is no thread.
fn add_message(
    alloc: Global,
    program: &Program,
    x: &mut Checkpoint,
    text: &[u8],
) -> Result<(), Unread>
    ensures { (lines : Lines) → Gathers lines x.old → Grows (reading.with_message (program_view program.now) lines text.now) x.new result }
{
    if !x.config.threads.is_empty() {
        return Err(Unread::NotSpelled);
    }
    let message = read_message(alloc, program, x, text)?;
    if !is_next_message(x.config.messages.as_slice(), message.number) {
        return Err(Unread::NotSpelled);
    }
    x.config.messages.push(message)?;
    Ok(())
}

fn push_thread(alloc: Global, x: &mut Checkpoint, line: ThreadLine) -> Result<(), AllocError>
    ensures { OnOk result (x.new ≡ with_thread x.old line) }
{
    let state = ThreadState {
        control: line.control,
        frames: Stack::new(alloc),
    };
    let certs = PartCerts::new(alloc, line.cert)?;
    x.config.threads.push((line.number, state))?;
    x.part_certs.push(certs)
}

/// A thread more, without frames.
fn add_thread(
    alloc: Global,
    program: &Program,
    x: &mut Checkpoint,
    text: &[u8],
) -> Result<(), Unread>
    ensures { (lines : Lines) → Gathers lines x.old → Grows (reading.with_thread (program_view program.now) lines text.now) x.new result }
{
    let line = read_thread(alloc, program, text)?;
    if !is_next_thread(x.config.threads.as_slice(), line.number) {
        return Err(Unread::NotSpelled);
    }
    push_thread(alloc, x, line)?;
    Ok(())
}

/// A thread with a frame more on top.
fn state_with(state: ThreadState, frame: Frame) -> Result<ThreadState, AllocError>
    ensures { IfOk result (λ s. s ≡ record { control = state.control; frames = frame ∷ state.frames }) }
{
    let mut state = state;
    state.frames.push(frame)?;
    Ok(state)
}

/// Puts the frame on top of those of the last thread, if there is one.
fn frame_on_last(threads: &mut Sequence<(u32, ThreadState)>, frame: Frame) -> Result<(), Unread>
    ensures { Turns (with_frame frame) threads.old threads.new result }
{
    match threads.pop() {
        Some((number, state)) => {
            let state = state_with(state, frame)?;
            threads.push((number, state))?;
            Ok(())
        }
        None => Err(Unread::NotSpelled),
    }
}

/// Puts its certificate on top of those of the last thread's frames.
fn cert_on_last(
    alloc: Global,
    part_certs: &mut Sequence<PartCerts>,
    cert: Option<Cert>,
) -> Result<(), Unread>
    ensures { Turns (with_cert cert) part_certs.old part_certs.new result }
{
    match part_certs.pop() {
        Some(certs) => {
            let certs = certs.with_frame(alloc, cert)?;
            part_certs.push(certs)?;
            Ok(())
        }
        None => Err(Unread::NotSpelled),
    }
}

/// A frame more, on top of those of the last thread.
fn add_frame(
    alloc: Global,
    program: &Program,
    x: &mut Checkpoint,
    text: &[u8],
) -> Result<(), Unread>
    ensures { (lines : Lines) → Gathers lines x.old → Grows (reading.with_frame (program_view program.now) lines text.now) x.new result }
{
    let line = read_frame(alloc, program, text)?;
    frame_on_last(&mut x.config.threads, line.frame)?;
    cert_on_last(alloc, &mut x.part_certs, line.cert)
}

/// The checkpoint with a line more, behind the next numbers: mailboxes, then messages, then threads, each behind those of its kind with
/// lower numbers, and frames behind their thread.
pub fn read_line(
    alloc: Global,
    program: &Program,
    x: &mut Checkpoint,
    line: &[u8],
) -> Result<(), Unread>
    requires { length program.now.interfaces < number_count }
    ensures { (lines : Lines) → Gathers lines x.old → Grows (reading.with_line (program_view program.now) lines line.now) x.new result }
{
    match behind(line, b"mailbox ") {
        Some(more) => add_mailbox(alloc, program, x, more),
        None => match behind(line, b"message ") {
            Some(more) => add_message(alloc, program, x, more),
            None => match behind(line, b"thread ") {
                Some(more) => add_thread(alloc, program, x, more),
                None => match behind(line, b"frame ") {
                    Some(more) => add_frame(alloc, program, x, more),
                    None => Err(Unread::NotSpelled),
                },
            },
        },
    }
}
