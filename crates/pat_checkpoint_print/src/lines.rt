// Lines.
ghost use Rattle.std.specs.Prelude.{◌≡◌, ◌++◌, ◌∷◌, [], OnOk, IsTrue, codes, map, option_copied};
ghost use Rattle.std.specs.Fmt.{decimal};
ghost use Rattle.pat_core.specs.Views.{program_view};
ghost use Rattle.pat_reduce_values.specs.ValueViews.{value_view, env_view};
ghost use Rattle.pat_reduce.specs.threads.ThreadViews.{control_view, frame_view, message_view};
ghost use Rattle.pat_checkpoint_data.specs.Views.{end_view};
ghost use Rattle.pat_checkpoint_spec.specs.text.ValueText.{values_text, env_text};
ghost use Rattle.pat_checkpoint_spec.specs.text.CheckpointText.{line, cert_end, next_text, mailbox_text, control_text, thread_text, name_text, frame_text};
ghost use Rattle.pat_checkpoint_spec.specs.text.LineReading.{lines_with};
ghost use Rattle.pat_texts_spec.specs.Numbers.{is_number};
ghost use Rattle.pat_checkpoint_laws.specs.text.Readable.{is_cert, is_name};
ghost use Rattle.pat_checkpoint_print.specs.Ranges.{values_in_range, control_in_range, frame_in_range, message_in_range};

use crate::atoms::{put, put_behind, put_number};
use crate::places::name_of_interface;
use crate::values::{put_bound, put_value, put_values};
use pat_core::Program;
use pat_deriv::put_cert;
use pat_derivations::Cert;
use pat_reduce::{Control, Frame, Message};
use pat_reduce_values::Value;
use std::alloc::{AllocError, Global};

/// What a line ends with: a certificate behind a space, if there is one, and the newline.
fn put_end(out: &mut Vec<u8>, cert: Option<&Cert>) -> Result<(), AllocError>
    ensures text { OnOk result (out.new.items ≡ out.old.items ++ (cert_end (end_view (option_copied cert.entry)) ++ 10 ∷ [])) }
    ensures range { OnOk result (IsTrue (is_cert (end_view (option_copied cert.entry)))) }
{
    match cert {
        None => put(out, b"\n"),
        Some(cert) => {
            put(out, b" ")?;
            put_cert(out, cert)?;
            put(out, b"\n")
        }
    }
}

/// The line of the next numbers of threads, mailboxes and messages.
pub fn put_next(
    out: &mut Vec<u8>,
    threads: u32,
    mailboxes: u32,
    messages: u32,
) -> Result<(), AllocError>
    ensures text { OnOk result (out.new.items ≡ out.old.items ++ line (next_text (lines_with threads mailboxes messages))) }
    ensures range { OnOk result (IsTrue (is_number threads) × IsTrue (is_number mailboxes) × IsTrue (is_number messages)) }
{
    put(out, b"next ")?;
    put_number(out, threads)?;
    put_behind(out, b' ', mailboxes)?;
    put_behind(out, b' ', messages)?;
    put(out, b"\n")
}

/// The line of a mailbox of an interface.
pub fn put_mailbox(
    out: &mut Vec<u8>,
    program: &Program,
    number: u32,
    interface: u32,
    cert: Option<&Cert>,
) -> Result<(), AllocError>
    ensures text { OnOk result (out.new.items ≡ out.old.items
        ++ line (mailbox_text (program_view program.now)
        (record { number = number; interface = interface; cert = end_view (option_copied cert.entry) }))) }
    ensures range { OnOk result (IsTrue (is_number number) × IsTrue (is_cert (end_view (option_copied cert.entry)))) }
{
    put(out, b"mailbox ")?;
    put_number(out, number)?;
    put(out, b" ")?;
    put(out, name_of_interface(program, interface))?;
    put_end(out, cert)
}

/// A payload in brackets.
fn put_payload(alloc: Global, out: &mut Vec<u8>, values: &[Value]) -> Result<(), AllocError>
    ensures text { OnOk result (out.new.items ≡ out.old.items ++ (40 ∷ (values_text (map value_view values.now) ++ 41 ∷ []))) }
    ensures range { OnOk result (IsTrue (values_in_range (map value_view values.now))) }
{
    put(out, b"(")?;
    put_values(alloc, out, values)?;
    put(out, b")")
}

/// The line of a message whose tag has this name.
pub fn put_message(
    alloc: Global,
    out: &mut Vec<u8>,
    message: &Message,
    tag: &[u8],
) -> Result<(), AllocError>
    ensures text { OnOk result (out.new.items ≡ out.old.items
        ++ line (codes "message " ++ (decimal message.now.number ++ 32
        ∷ (decimal message.now.mailbox ++ 32 ∷ (tag.now ++ 40 ∷ (values_text (map value_view message.now.values) ++ 41 ∷ [])))))) }
    ensures range { OnOk result (IsTrue (message_in_range (message_view message.now))) }
{
    put(out, b"message ")?;
    put_number(out, message.number)?;
    put_behind(out, b' ', message.mailbox)?;
    put(out, b" ")?;
    put(out, tag)?;
    put_payload(alloc, out, message.values.as_slice())?;
    put(out, b"\n")
}

/// A node with the values of variables, or a value.
fn put_control(alloc: Global, out: &mut Vec<u8>, control: &Control) -> Result<(), AllocError>
    ensures text { OnOk result (out.new.items ≡ out.old.items ++ control_text (control_view control.now)) }
    ensures range { OnOk result (IsTrue (control_in_range (control_view control.now))) }
{
    match control {
        Control::Node { node, env } => {
            put(out, b"node ")?;
            put_bound(alloc, out, *node, env.as_slice())
        }
        Control::Returned(value) => {
            put(out, b"value ")?;
            put_value(alloc, out, value)
        }
    }
}

/// The line of a thread without its frames.
pub fn put_thread(
    alloc: Global,
    out: &mut Vec<u8>,
    number: u32,
    control: &Control,
    cert: Option<&Cert>,
) -> Result<(), AllocError>
    ensures text { OnOk result (out.new.items ≡ out.old.items
        ++ line (thread_text (record {
          number = number;
          control = control_view control.now;
          cert = end_view (option_copied cert.entry);
          frames = [];
        }))) }
    ensures range { OnOk result (IsTrue (is_number number) × IsTrue (control_in_range (control_view control.now))
        × IsTrue (is_cert (end_view (option_copied cert.entry)))) }
{
    put(out, b"thread ")?;
    put_number(out, number)?;
    put(out, b" ")?;
    put_control(alloc, out, control)?;
    put_end(out, cert)
}

/// The variable that a value is bound to, or a dash for none.
fn put_name(out: &mut Vec<u8>, var: Option<u32>) -> Result<(), AllocError>
    ensures text { OnOk result (out.new.items ≡ out.old.items ++ name_text var) }
    ensures range { OnOk result (IsTrue (is_name var)) }
{
    match var {
        None => put(out, b"-"),
        Some(variable) => put_behind(out, b'v', variable),
    }
}

/// The line of a frame.
pub fn put_frame(
    alloc: Global,
    out: &mut Vec<u8>,
    frame: &Frame,
    cert: Option<&Cert>,
) -> Result<(), AllocError>
    ensures text { OnOk result (out.new.items ≡ out.old.items
        ++ line (frame_text (record { frame = frame_view frame.now; cert = end_view (option_copied cert.entry) }))) }
    ensures range { OnOk result (IsTrue (frame_in_range (frame_view frame.now)) × IsTrue (is_cert (end_view (option_copied cert.entry)))) }
{
    put(out, b"frame ")?;
    put_name(out, frame.var)?;
    put(out, b" ")?;
    put_bound(alloc, out, frame.body, frame.env.as_slice())?;
    put_end(out, cert)
}
