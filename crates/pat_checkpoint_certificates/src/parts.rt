// Certificates of the parts of threads.
ghost use Rattle.std.specs.Prelude.{◌≡◌, ◌<◌, ◌+◌, Some, length, option_map, option_copied, reverse, take, IfOk, IfErr};
ghost use Rattle.pat_semantics_spec.specs.Programs.{Program as GhostProgram};
ghost use Rattle.pat_type_system_spec.specs.Typings.{Typing};
ghost use Rattle.pat_type_system_spec.specs.Holdings.{wanted as wanted_by};
ghost use Rattle.pat_derivation_spec.specs.Derivations.{type_at};
ghost use Rattle.pat_derivation_spec.specs.Demands.{same_interface, inclusion};
ghost use Rattle.pat_patterns.specs.Views.{pattern_view};
ghost use Rattle.pat_type_schemes_spec.specs.NodeTypes.{result_open};
ghost use Rattle.pat_types.specs.Views.{result_view};
ghost use Rattle.pat_derivations.specs.Views.{derivation_view};
ghost use Rattle.pat_reduce.specs.threads.ThreadViews.{control_view, thread_view};
ghost use Rattle.pat_reduce.specs.Views.{threads_view};
ghost use Rattle.pat_checkpoint_spec.specs.Kinds.{type_needs, control_needs};
ghost use Rattle.pat_checkpoint_spec.specs.Written.{IsFormedNeed, NeedsFormed, frames_need, threads_need};
ghost use Rattle.pat_checkpoint_certificates.specs.Needs.{need_view};
ghost use Rattle.pat_checkpoint_certificates.specs.Searches.{program_in, scope_in, typing_in, bounds_in, IsSearch};
ghost use Rattle.pat_checkpoint_certificates.specs.Found.{or_unit, IsFound, IsUnshownFrom};
ghost use Rattle.pat_checkpoint_certificates.specs.Parts.{frames_of, thread_needs, CanAllBeShown, IsFoundAt, FramesFound, ThreadFound, ThreadsFound};

use crate::error::{CertifyError, line_after, unshown};
use crate::search::Search;
use crate::showing::{Need, number_at, show_need};
use pat_checkpoint_data::PartCerts;
use pat_derivations::{Cert, Derivation};
use pat_patterns::Pattern;
use pat_primitives::Polarity;
use pat_reduce::{Control, Frame, ThreadState};
use pat_sequences::{Sequence, Stack};
use pat_types::TypeOf;
use std::alloc::{AllocError, Global};

/// The type of the node, if it has one.
fn result_at<'a>(derivation: &'a Derivation, node: u32) -> Option<&'a TypeOf>
    ensures { or_unit (option_map result_view (option_copied result)) ≡ result_open (type_at (derivation_view derivation.now) node) }
{
    match derivation.nodes.as_slice().get(node as usize) {
        None => None,
        Some(line) => Some(&line.of.result),
    }
}

/// What these frames, the last one first, want of what is above them, if there is one and it has a type.
fn wanted<'a>(search: &Search<'a>, below: &[Frame]) -> Option<&'a TypeOf>
    requires { IsSearch search.now }
    ensures { or_unit (option_map result_view (option_copied result))
        ≡ wanted_by (program_in search.now) (typing_in search.now) (frames_of below.now) }
{
    let Some(frame) = below.last() else {
        return None;
    };
    match number_at(search.lets, frame.body) {
        None => None,
        Some(bound) => result_at(search.derivation, bound),
    }
}

fn same(first: u32, second: u32) -> Option<u32>
    ensures { result ≡ same_interface first second }
{
    if first == second { Some(first) } else { None }
}

/// The inclusion that is needed for a term of the one type to fit where the other is wanted, if they are of mailboxes.
fn fit<'a>(given: &'a TypeOf, asked: &'a TypeOf) -> Option<Need<'a>>
    ensures { option_map need_view result ≡ type_needs (result_view given.now) (result_view asked.now) }
{
    match (given, asked) {
        (
            TypeOf::Mailbox {
                interface,
                polarity: _,
                pattern,
            },
            TypeOf::Mailbox {
                interface: own,
                polarity,
                pattern: whole,
            },
        ) => {
            let interface = same(*interface, *own);
            Some(match polarity {
                Polarity::Sending => lies_in(interface, whole, pattern),
                Polarity::Receiving => lies_in(interface, pattern, whole),
            })
        }
        _ => None,
    }
}

fn lies_in<'a>(interface: Option<u32>, left: &'a Pattern, right: &'a Pattern) -> Need<'a>
    ensures { need_view result ≡ inclusion interface (pattern_view left.now) (pattern_view right.now) }
{
    Need {
        interface,
        left,
        right,
    }
}

/// The same where there may be no types, which then are unit.
fn needed<'a>(given: Option<&'a TypeOf>, asked: Option<&'a TypeOf>) -> Option<Need<'a>>
    ensures { option_map need_view result ≡ type_needs (or_unit (option_map result_view (option_copied given.entry)))
        (or_unit (option_map result_view (option_copied asked.entry))) }
{
    match given {
        None => None,
        Some(given) => match asked {
            None => None,
            Some(asked) => fit(given, asked),
        },
    }
}

/// How it is shown that what the node gives fits what the frames below want.
fn show_part(
    alloc: Global,
    search: &Search,
    node: u32,
    below: &[Frame],
) -> Result<Option<Option<Cert>>, AllocError>
    requires search { IsSearch search.now }
    requires formed { IsFormedNeed (scope_in search.now)
        (type_needs ((typing_in search.now).results node)
        (wanted_by (program_in search.now) (typing_in search.now) (frames_of below.now))) }
    ensures { IfOk result (IsFound (scope_in search.now) (bounds_in search.now)
        (type_needs ((typing_in search.now).results node)
        (wanted_by (program_in search.now) (typing_in search.now) (frames_of below.now)))) }
{
    let given = result_at(search.derivation, node);
    let asked = wanted(search, below);
    let need = needed(given, asked);
    show_need(alloc, search, &need)
}

/// How it is shown that what the control gives fits what the frames want.
fn show_control(
    alloc: Global,
    search: &Search,
    control: &Control,
    frames: &[Frame],
) -> Result<Option<Option<Cert>>, AllocError>
    requires search { IsSearch search.now }
    requires formed { IsFormedNeed (scope_in search.now)
        (control_needs (program_in search.now) (typing_in search.now) (control_view control.now) (frames_of frames.now)) }
    ensures { IfOk result (IsFound (scope_in search.now) (bounds_in search.now)
        (control_needs (program_in search.now) (typing_in search.now) (control_view control.now) (frames_of frames.now))) }
{
    match control {
        Control::Node { node, env: _ } => show_part(alloc, search, *node, frames),
        Control::Returned(_) => Ok(Some(None)),
    }
}

/// How it is shown that what the frame at this place gives fits what those below it want.
fn show_frame(
    alloc: Global,
    search: &Search,
    frames: &[Frame],
    place: usize,
) -> Result<Option<Option<Cert>>, AllocError>
    requires search { IsSearch search.now }
    requires place { place < length frames.now }
    requires formed { NeedsFormed (scope_in search.now)
        (frames_need (program_in search.now) (typing_in search.now) (frames_of frames.now)) }
    ensures { IfOk result (IsFoundAt search.now frames.now place) }
{
    show_part(alloc, search, frames[place].body, &frames[..place])
}

/// The certificate of the frame at this place, where what those below it need can be shown; the lines of frames begin at this one.
fn certify_frame(
    alloc: Global,
    search: &Search,
    frames: &[Frame],
    place: usize,
    line: usize,
) -> Result<Option<Cert>, CertifyError>
    requires search { IsSearch search.now }
    requires place { place < length frames.now }
    requires formed { NeedsFormed (scope_in search.now)
        (frames_need (program_in search.now) (typing_in search.now) (frames_of frames.now)) }
    requires below { CanAllBeShown search.now (take place frames.now) }
    ensures found { IfOk result (λ cert. IsFoundAt search.now frames.now place (Some cert)) }
    ensures unshown { IfErr result (IsUnshownFrom (scope_in search.now) (bounds_in search.now) line
        (reverse (frames_need (program_in search.now) (typing_in search.now) (frames_of frames.now)))) }
{
    match show_frame(alloc, search, frames, place)? {
        None => Err(unshown(line, place)),
        Some(cert) => Ok(cert),
    }
}

/// Certificates of the frames, the last one first, whose lines begin at this one.
fn certify_frames(
    alloc: Global,
    search: &Search,
    frames: &[Frame],
    line: usize,
) -> Result<Stack<Option<Cert>>, CertifyError>
    requires search { IsSearch search.now }
    requires formed { NeedsFormed (scope_in search.now)
        (frames_need (program_in search.now) (typing_in search.now) (frames_of frames.now)) }
    ensures found { IfOk result (FramesFound search.now frames.now) }
    ensures unshown { IfErr result (IsUnshownFrom (scope_in search.now) (bounds_in search.now) line
        (reverse (frames_need (program_in search.now) (typing_in search.now) (frames_of frames.now)))) }
{
    let mut certs = Stack::new(alloc);
    for place in 0..frames.len() {
        let cert = certify_frame(alloc, search, frames, place, line)?;
        certs.push(cert)?;
    }
    Ok(certs)
}

/// Certificates of the parts of a thread, whose lines begin at this one: the control's, and those of the frames from the last one on.
fn certify_thread(
    alloc: Global,
    search: &Search,
    thread: &ThreadState,
    line: usize,
) -> Result<PartCerts, CertifyError>
    requires search { IsSearch search.now }
    requires formed { NeedsFormed (scope_in search.now)
        (thread_needs (program_in search.now) (typing_in search.now) (thread_view thread.now)) }
    ensures found { IfOk result (ThreadFound search.now (thread_view thread.now)) }
    ensures unshown { IfErr result (IsUnshownFrom (scope_in search.now) (bounds_in search.now) line
        (thread_needs (program_in search.now) (typing_in search.now) (thread_view thread.now))) }
{
    let next = line_after(line, 1)?;
    let frames = thread.frames.as_slice();
    match show_control(alloc, search, &thread.control, frames)? {
        None => Err(CertifyError::Unshown(line)),
        Some(control) => {
            let frames = certify_frames(alloc, search, frames, next)?;
            let certs = PartCerts::of(alloc, control, frames)?;
            Ok(certs)
        }
    }
}

/// The line behind those of the thread, which begin at this one.
fn line_after_thread(line: usize, thread: &ThreadState) -> Result<usize, AllocError>
    ensures { (p : GhostProgram) (y : Typing) → IfOk result (λ next. next ≡ line + length (thread_needs p y (thread_view thread.now))) }
{
    let next = line_after(line, 1)?;
    line_after(next, thread.frames.len())
}

/// Certificates of the parts of threads, whose lines begin at this one.
pub fn certify_threads(
    alloc: Global,
    search: &Search,
    threads: &[(u32, ThreadState)],
    first: usize,
) -> Result<Sequence<PartCerts>, CertifyError>
    requires search { IsSearch search.now }
    requires formed { NeedsFormed (scope_in search.now)
        (threads_need (program_in search.now) (typing_in search.now) (threads_view threads.now)) }
    ensures found { IfOk result (ThreadsFound search.now (threads_view threads.now)) }
    ensures unshown { IfErr result (IsUnshownFrom (scope_in search.now) (bounds_in search.now) first
        (threads_need (program_in search.now) (typing_in search.now) (threads_view threads.now))) }
{
    let mut certs = Sequence::new(alloc);
    let mut line = first;
    for (_, thread) in threads {
        let own = certify_thread(alloc, search, thread, line)?;
        certs.push(own)?;
        line = line_after_thread(line, thread)?;
    }
    Ok(certs)
}
