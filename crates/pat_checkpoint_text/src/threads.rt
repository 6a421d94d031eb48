// Lines of threads and of their frames.
ghost use Rattle.std.specs.Prelude.{◌≡◌, option_and_then};
ghost use Rattle.pat_checkpoint_spec.specs.text.LineReading as reading;
ghost use Rattle.pat_checkpoint_text.specs.Views.{bound_view, held_view, thread_view, frame_view};
ghost use Rattle.pat_core.specs.Views.{program_view};
ghost use Rattle.pat_derivation_lines.specs.patterns.Answers.{Gives};
ghost use Rattle.pat_texts_spec.specs.Joined.{cut as cut_of};

use crate::heads::{read_cert_end, with_cert};
use crate::outside::cut_outside;
use crate::values::{read_env, read_value};
use pat_core::Program;
use pat_derivation_lines::{Unread, number_of};
use pat_derivations::Cert;
use pat_reduce::{Control, Frame, Value};
use pat_sequences::Sequence;
use pat_texts::{behind, cut};
use std::alloc::Global;

/// A thread without its frames, and the certificate of its control.
#[derive(Drop)]
pub struct ThreadLine {
    pub number: u32,
    pub control: Control,
    pub cert: Option<Cert>,
}

/// A frame with its certificate.
#[derive(Drop)]
pub struct FrameLine {
    pub frame: Frame,
    pub cert: Option<Cert>,
}

/// A number of a node of the program.
fn read_node(program: &Program, text: &[u8]) -> Result<u32, Unread>
    ensures { Gives (λ n. n) (reading.read_node (program_view program.now) text.now) result }
{
    let node = number_of(text)?;
    if (node as usize) < program.nodes.len() {
        Ok(node)
    } else {
        Err(Unread::NotSpelled)
    }
}

/// The values of variables in curly brackets, and a certificate.
fn read_bound(alloc: Global, text: &[u8]) -> Result<(Sequence<(u32, Value)>, Option<Cert>), Unread>
    ensures { Gives bound_view (reading.read_bound text.now) result }
{
    match behind(text, b"{") {
        Some(more) => match cut_outside(more, b'}') {
            Some((inner, rest)) => {
                let env = read_env(alloc, inner)?;
                let cert = read_cert_end(alloc, rest)?;
                Ok((env, cert))
            }
            None => Err(Unread::NotSpelled),
        },
        None => Err(Unread::NotSpelled),
    }
}

/// A node with the values of variables, behind its word.
fn read_running(
    alloc: Global,
    program: &Program,
    text: &[u8],
) -> Result<(Control, Option<Cert>), Unread>
    ensures { Gives held_view (reading.read_running (program_view program.now) text.now) result }
{
    match cut(text, b' ') {
        Some((own, more)) => {
            let node = read_node(program, own)?;
            let (env, cert) = read_bound(alloc, more)?;
            Ok((Control::Node { node, env }, cert))
        }
        None => Err(Unread::NotSpelled),
    }
}

/// A value that is given back, behind its word.
fn read_returned(alloc: Global, text: &[u8]) -> Result<(Control, Option<Cert>), Unread>
    ensures { Gives held_view (reading.read_returned text.now) result }
{
    let (own, cert) = with_cert(alloc, text, cut_outside(text, b' '))?;
    let value = read_value(alloc, own)?;
    Ok((Control::Returned(value), cert))
}

/// A node, or else a value.
fn read_control(
    alloc: Global,
    program: &Program,
    text: &[u8],
) -> Result<(Control, Option<Cert>), Unread>
    ensures { Gives held_view (reading.read_control (program_view program.now) text.now) result }
{
    match behind(text, b"node ") {
        Some(more) => read_running(alloc, program, more),
        None => match behind(text, b"value ") {
            Some(more) => read_returned(alloc, more),
            None => Err(Unread::NotSpelled),
        },
    }
}

/// A thread without frames, behind its word.
pub fn read_thread(alloc: Global, program: &Program, text: &[u8]) -> Result<ThreadLine, Unread>
    ensures { Gives thread_view (reading.read_thread (program_view program.now) text.now) result }
{
    match cut(text, b' ') {
        Some((own, more)) => {
            let number = number_of(own)?;
            let (control, cert) = read_control(alloc, program, more)?;
            Ok(ThreadLine {
                number,
                control,
                cert,
            })
        }
        None => Err(Unread::NotSpelled),
    }
}

/// A variable, or a dash for none.
fn read_name(text: &[u8]) -> Result<Option<u32>, Unread>
    ensures { Gives (λ x. x) (reading.read_name text.now) result }
{
    if text == b"-".as_slice() {
        return Ok(None);
    }
    match behind(text, b"v") {
        Some(more) => {
            let variable = number_of(more)?;
            Ok(Some(variable))
        }
        None => Err(Unread::NotSpelled),
    }
}

/// A frame behind its name.
fn frame_in(
    alloc: Global,
    program: &Program,
    var: Option<u32>,
    text: &[u8],
) -> Result<FrameLine, Unread>
    ensures { Gives frame_view (option_and_then (reading.frame_in (program_view program.now) var) (cut_of 32 text.now)) result }
{
    match cut(text, b' ') {
        Some((own, more)) => {
            let body = read_node(program, own)?;
            let (env, cert) = read_bound(alloc, more)?;
            let frame = Frame { var, body, env };
            Ok(FrameLine { frame, cert })
        }
        None => Err(Unread::NotSpelled),
    }
}

/// A frame, behind its word.
pub fn read_frame(alloc: Global, program: &Program, text: &[u8]) -> Result<FrameLine, Unread>
    ensures { Gives frame_view (reading.read_frame (program_view program.now) text.now) result }
{
    match cut(text, b' ') {
        Some((own, more)) => {
            let var = read_name(own)?;
            frame_in(alloc, program, var, more)
        }
        None => Err(Unread::NotSpelled),
    }
}
