// Whether what each part gives is shown to fit what the next one wants.
ghost use Rattle.std.specs.Prelude.{◌≡◌, map, option_copied, reverse, Some, IsTrue, IfOk};
ghost use Rattle.pat_semantics_spec.specs.Programs.{Polarity as Way};
ghost use Rattle.pat_type_system_spec.specs.Types.{MailboxTerm};
ghost use Rattle.pat_type_system_spec.specs.Holdings.{wanted};
ghost use Rattle.pat_inclusion_spec.specs.Values.{is_formed};
ghost use Rattle.pat_inclusion_spec.specs.Certificates.{is_shown};
ghost use Rattle.pat_derivation_spec.specs.Rules.{type_is_formed};
ghost use Rattle.pat_derivation_spec.specs.Demands.{fit_by};
ghost use Rattle.pat_primitives.specs.Views.{polarity_view};
ghost use Rattle.pat_patterns.specs.Views.{pattern_view};
ghost use Rattle.pat_types.specs.Views.{result_view};
ghost use Rattle.pat_reduce.specs.Views.{threads_view};
ghost use Rattle.pat_reduce.specs.threads.ThreadViews.{control_view, frame_view, thread_view};
ghost use Rattle.pat_checkpoint_spec.specs.Kinds.{type_needs, is_certified as is_certified_by, control_needs, frames_shown as frames_shown_by, thread_shown as thread_shown_by, threads_shown as threads_shown_by};
ghost use Rattle.pat_checkpoint_data.specs.Views.{end_view, part_certs_view};
ghost use Rattle.pat_checkpoint_parts.specs.Typed.{program_in, typing_in, scope_in};
ghost use Rattle.pat_checkpoint_parts.specs.Shown.{CanShow};

use crate::typing::Typing;
use pat_certificate_checks::included;
use pat_checkpoint_data::PartCerts;
use pat_checkpoint_laws::examining_laws;
use pat_derivations::Cert;
use pat_patterns::Pattern;
use pat_primitives::Polarity;
use pat_reduce::{Control, Frame, ThreadState};
use pat_types::TypeOf;
use std::alloc::{AllocError, Global};

/// Whether for each thread there are certificates that show what its parts need.
pub fn threads_shown(
    alloc: Global,
    typing: &Typing<'_>,
    plain: &[Pattern],
    threads: &[(u32, ThreadState)],
    certs: &[PartCerts],
) -> Result<bool, AllocError>
    requires { CanShow typing.now plain.now }
    ensures { IfOk result (λ yes. yes ≡ threads_shown_by (program_in typing.now) (typing_in typing.now) (scope_in typing.now)
        (threads_view threads.now) (map part_certs_view certs.now)) }
{
    if threads.len() != certs.len() {
        return Ok(false);
    }
    for (place, (_, state)) in threads.iter().enumerate() {
        if !thread_shown(alloc, typing, plain, state, &certs[place])? {
            return Ok(false);
        }
    }
    Ok(true)
}

fn thread_shown(
    alloc: Global,
    typing: &Typing<'_>,
    plain: &[Pattern],
    state: &ThreadState,
    certs: &PartCerts,
) -> Result<bool, AllocError>
    requires { CanShow typing.now plain.now }
    ensures { IfOk result (λ yes. yes ≡ thread_shown_by (program_in typing.now) (typing_in typing.now) (scope_in typing.now)
        (thread_view state.now) (part_certs_view certs.now)) }
{
    let frames = state.frames.as_slice();
    if !control_shown(
        alloc,
        typing,
        plain,
        &state.control,
        frames,
        certs.control(),
    )? {
        return Ok(false);
    }
    frames_shown(alloc, typing, plain, frames, certs)
}

/// Whether what a control gives is shown, where the frames below it stand from the last one up.
fn control_shown(
    alloc: Global,
    typing: &Typing<'_>,
    plain: &[Pattern],
    control: &Control,
    frames: &[Frame],
    cert: Option<&Cert>,
) -> Result<bool, AllocError>
    requires { CanShow typing.now plain.now }
    ensures { IfOk result (λ yes. yes ≡ is_certified_by (scope_in typing.now)
        (control_needs (program_in typing.now) (typing_in typing.now) (control_view control.now) (map frame_view (reverse frames.now)))
        (end_view (option_copied cert.entry))) }
{
    match control {
        Control::Node { node, .. } => { is_certified(alloc, typing, plain, *node, frames, cert) }
        Control::Returned(_) => Ok(cert.is_none()),
    }
}

/// Whether what frames give is shown, where they and their certificates stand from the last one up.
fn frames_shown(
    alloc: Global,
    typing: &Typing<'_>,
    plain: &[Pattern],
    frames: &[Frame],
    certs: &PartCerts,
) -> Result<bool, AllocError>
    requires { CanShow typing.now plain.now }
    ensures { IfOk result (λ yes. yes ≡ frames_shown_by (program_in typing.now) (typing_in typing.now) (scope_in typing.now)
        (map frame_view (reverse frames.now)) (map end_view certs.now.frames)) }
{
    if frames.len() != certs.frame_count() {
        return Ok(false);
    }
    let mut shown = true;
    for (place, frame) in frames.iter().enumerate() {
        if shown {
            let below = &frames[..place];
            shown = is_certified(alloc, typing, plain, frame.body, below, certs.frame(place))?;
        }
    }
    Ok(shown)
}

/// Whether what a part at the node gives is shown to fit what the frames below it, from the last one up, want.
fn is_certified(
    alloc: Global,
    typing: &Typing<'_>,
    plain: &[Pattern],
    node: u32,
    below: &[Frame],
    cert: Option<&Cert>,
) -> Result<bool, AllocError>
    requires { CanShow typing.now plain.now }
    ensures { IfOk result (λ yes. yes ≡ is_certified_by (scope_in typing.now)
        (type_needs ((typing_in typing.now).results node)
        (wanted (program_in typing.now) (typing_in typing.now) (map frame_view (reverse below.now))))
        (end_view (option_copied cert.entry))) }
{
    examining_laws();
    match (typing.type_of(node), typing.wanted(below)) {
        (Some(given), Some(wanted)) => type_fits(alloc, typing, plain, given, wanted, cert),
        _ => Ok(cert.is_none()),
    }
}

/// Whether it is shown that the one type fits the other, where that needs to be.
fn type_fits(
    alloc: Global,
    typing: &Typing<'_>,
    plain: &[Pattern],
    given: &TypeOf,
    wanted: &TypeOf,
    cert: Option<&Cert>,
) -> Result<bool, AllocError>
    requires can { CanShow typing.now plain.now }
    requires given { IsTrue (type_is_formed (scope_in typing.now) (result_view given.now)) }
    requires wanted { IsTrue (type_is_formed (scope_in typing.now) (result_view wanted.now)) }
    ensures { IfOk result (λ yes. yes ≡ is_certified_by (scope_in typing.now) (type_needs (result_view given.now) (result_view wanted.now))
        (end_view (option_copied cert.entry))) }
{
    match given {
        TypeOf::Base(_) => Ok(cert.is_none()),
        TypeOf::Mailbox {
            interface,
            pattern,
            ..
        } => pattern_fits(alloc, typing, plain, *interface, pattern, wanted, cert),
    }
}

/// The same where the given type is that of a mailbox. Its polarity decides nothing.
fn pattern_fits(
    alloc: Global,
    typing: &Typing<'_>,
    plain: &[Pattern],
    interface: u32,
    given: &Pattern,
    wanted: &TypeOf,
    cert: Option<&Cert>,
) -> Result<bool, AllocError>
    requires can { CanShow typing.now plain.now }
    requires given { IsTrue (is_formed (scope_in typing.now) interface (pattern_view given.now)) }
    requires wanted { IsTrue (type_is_formed (scope_in typing.now) (result_view wanted.now)) }
    ensures { IfOk result (λ yes. (way : Way)
        → yes ≡ is_certified_by (scope_in typing.now)
        (type_needs (MailboxTerm interface way (pattern_view given.now)) (result_view wanted.now)) (end_view (option_copied cert.entry))) }
{
    match wanted {
        TypeOf::Base(_) => Ok(cert.is_none()),
        TypeOf::Mailbox {
            interface: other,
            polarity,
            pattern,
        } => {
            if interface != *other {
                return Ok(false);
            }
            fits_by(
                alloc, typing, plain, interface, *polarity, given, pattern, cert,
            )
        }
    }
}

/// Whether it is shown that the one pattern of the interface fits the other.
fn fits_by(
    alloc: Global,
    typing: &Typing<'_>,
    plain: &[Pattern],
    interface: u32,
    polarity: Polarity,
    given: &Pattern,
    wanted: &Pattern,
    cert: Option<&Cert>,
) -> Result<bool, AllocError>
    requires can { CanShow typing.now plain.now }
    requires given { IsTrue (is_formed (scope_in typing.now) interface (pattern_view given.now)) }
    requires wanted { IsTrue (is_formed (scope_in typing.now) interface (pattern_view wanted.now)) }
    ensures { IfOk result (λ yes. yes ≡ is_shown (scope_in typing.now)
        (fit_by (polarity_view polarity) (Some interface) (pattern_view given.now) (pattern_view wanted.now))
        (end_view (option_copied cert.entry))) }
{
    let (program, derivation) = (typing.program, typing.derivation);
    match polarity {
        Polarity::Sending => included(
            alloc, program, derivation, plain, interface, wanted, given, cert,
        ),
        Polarity::Receiving => included(
            alloc, program, derivation, plain, interface, given, wanted, cert,
        ),
    }
}
