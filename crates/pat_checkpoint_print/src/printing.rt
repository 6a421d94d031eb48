// The lines of a checkpoint, kind by kind.
ghost use Rattle.std.specs.Prelude.{◌≡◌, ◌++◌, ℕ, List, Option, length, map, reverse, IfOk, OnOk, IsTrue};
ghost use Rattle.pat_core.specs.Views.{program_view};
ghost use Rattle.pat_semantics_spec.specs.Orders.{AscendsFrom};
ghost use Rattle.pat_reduce.specs.Views.{threads_view};
ghost use Rattle.pat_reduce.specs.threads.ThreadViews.{thread_view, frame_view, message_view};
ghost use Rattle.pat_checkpoint_data.specs.Views.{end_view, part_certs_view, checkpoint_view};
ghost use Rattle.pat_checkpoint_spec.specs.Checkpoints.{IsAligned, PartsAlign};
ghost use Rattle.pat_checkpoint_spec.specs.text.Lines.{mailbox_lines, thread_line_of, thread_lines};
ghost use Rattle.pat_checkpoint_spec.specs.text.CheckpointText.{line, mailboxes_text, messages_text, thread_lines_text, threads_text, checkpoint_text};
ghost use Rattle.pat_checkpoint_print.specs.Upwards.{frames_upwards};
ghost use Rattle.pat_texts_spec.specs.Numbers.{is_number};
ghost use Rattle.pat_checkpoint_laws.specs.text.Readable.{is_cert, are_certs};
ghost use Rattle.pat_inclusion_spec.specs.Certificates.{Cert as GhostCert};
ghost use Rattle.std.specs.List.{list_all};
ghost use Rattle.pat_checkpoint_print.specs.Ranges.{frame_in_range, thread_in_range, message_in_range, IsInRange};

use crate::lines::{put_frame, put_mailbox, put_message, put_next, put_thread};
use crate::places::tag_in;
use pat_checkpoint_data::{Checkpoint, PartCerts};
use pat_core::Program;
use pat_derivations::Cert;
use pat_reduce::{Frame, Message, ThreadState};
use std::alloc::{AllocError, Global};

/// The lines of mailboxes.
fn put_mailboxes(
    out: &mut Vec<u8>,
    program: &Program,
    live: &[u32],
    interfaces: &[u32],
    certs: &[Option<Cert>],
) -> Result<(), AllocError>
    requires interfaces { length interfaces.now ≡ length live.now }
    requires certs { length certs.now ≡ length live.now }
    ensures text { OnOk result (out.new.items ≡ out.old.items
        ++ mailboxes_text (program_view program.now) (mailbox_lines live.now interfaces.now (map end_view certs.now))) }
    ensures range { OnOk result (IsTrue (list_all is_number live.now) × IsTrue (list_all is_cert (map end_view certs.now))) }
{
    for (place, number) in live.iter().enumerate() {
        put_mailbox(
            out,
            program,
            *number,
            interfaces[place],
            certs[place].as_ref(),
        )?;
    }
    Ok(())
}

/// The lines of messages in mailboxes of these interfaces.
fn put_messages(
    alloc: Global,
    out: &mut Vec<u8>,
    program: &Program,
    live: &[u32],
    interfaces: &[u32],
    messages: &[Message],
) -> Result<(), AllocError>
    requires order { AscendsFrom 0 live.now }
    requires interfaces { length interfaces.now ≡ length live.now }
    ensures text { (certs : List (Option GhostCert)) → length certs ≡ length live.now
        → OnOk result (out.new.items ≡ out.old.items
        ++ messages_text (program_view program.now) (mailbox_lines live.now interfaces.now certs) (map message_view messages.now)) }
    ensures range { OnOk result (IsTrue (list_all message_in_range (map message_view messages.now))) }
{
    for message in messages {
        let tag = tag_in(program, live, interfaces, message.mailbox, message.tag);
        put_message(alloc, out, message, tag)?;
    }
    Ok(())
}

/// The lines of frames, from the bottom up.
fn put_frames(
    alloc: Global,
    out: &mut Vec<u8>,
    frames: &[Frame],
    certs: &PartCerts,
) -> Result<(), AllocError>
    requires { length certs.now.frames ≡ length frames.now }
    ensures text { OnOk result (out.new.items ≡ out.old.items
        ++ frames_upwards (map frame_view frames.now) (map end_view (reverse certs.now.frames))) }
    ensures range { OnOk result (IsTrue (list_all frame_in_range (map frame_view frames.now))
        × IsTrue (list_all is_cert (map end_view (reverse certs.now.frames)))) }
{
    for (place, frame) in frames.iter().enumerate() {
        put_frame(alloc, out, frame, certs.frame(place))?;
    }
    Ok(())
}

/// The lines of a thread and of its frames.
fn put_whole_thread(
    alloc: Global,
    out: &mut Vec<u8>,
    number: u32,
    state: &ThreadState,
    certs: &PartCerts,
) -> Result<(), AllocError>
    requires { length certs.now.frames ≡ length state.now.frames }
    ensures text { OnOk result (out.new.items ≡ out.old.items
        ++ thread_lines_text (thread_line_of (number, thread_view state.now) (part_certs_view certs.now))) }
    ensures range { OnOk result (IsTrue (thread_in_range (number, thread_view state.now))
        × IsTrue (are_certs (part_certs_view certs.now))) }
{
    put_thread(alloc, out, number, &state.control, certs.control())?;
    put_frames(alloc, out, state.frames.as_slice(), certs)
}

/// The lines of threads.
fn put_threads(
    alloc: Global,
    out: &mut Vec<u8>,
    threads: &[(u32, ThreadState)],
    certs: &[PartCerts],
) -> Result<(), AllocError>
    requires count { length certs.now ≡ length threads.now }
    requires parts { PartsAlign (threads_view threads.now) (map part_certs_view certs.now) }
    ensures text { OnOk result (out.new.items ≡ out.old.items
        ++ threads_text (thread_lines (threads_view threads.now) (map part_certs_view certs.now))) }
    ensures range { OnOk result (IsTrue (list_all thread_in_range (threads_view threads.now))
        × IsTrue (list_all are_certs (map part_certs_view certs.now))) }
{
    for (place, (number, state)) in threads.iter().enumerate() {
        put_whole_thread(alloc, out, *number, state, &certs[place])?;
    }
    Ok(())
}

/// The text of a checkpoint of the program, whose mailboxes ascend and whose lists are as long as what they go along with. A name that
/// the program doesn't have is left out. The checkpoint's numbers have 32 bits and its integers 64, so a text can have them.
pub fn print(
    alloc: Global,
    program: &Program,
    checkpoint: &Checkpoint,
) -> Result<Vec<u8>, AllocError>
    requires aligned { IsAligned (checkpoint_view checkpoint.now) }
    requires order { AscendsFrom 0 checkpoint.now.config.live }
    ensures text { IfOk result (λ text. text.items ≡ checkpoint_text (program_view program.now) (checkpoint_view checkpoint.now)) }
    ensures range { IfOk result (λ text. IsInRange (checkpoint_view checkpoint.now)) }
{
    let config = &checkpoint.config;
    let live = config.live.as_slice();
    let interfaces = checkpoint.interfaces.as_slice();
    let mut text = b"%%checkpoint\n".to_vec(alloc)?;
    put_next(
        &mut text,
        config.next_thread,
        config.next_mailbox,
        config.next_message,
    )?;
    put_mailboxes(
        &mut text,
        program,
        live,
        interfaces,
        checkpoint.mailbox_certs.as_slice(),
    )?;
    put_messages(
        alloc,
        &mut text,
        program,
        live,
        interfaces,
        config.messages.as_slice(),
    )?;
    put_threads(
        alloc,
        &mut text,
        config.threads.as_slice(),
        checkpoint.part_certs.as_slice(),
    )?;
    Ok(text)
}
