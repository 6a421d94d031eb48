// The fourth rule: what may be returned is in no later part.
ghost use Rattle.std.specs.Prelude.{◌≡◌, ◌&&◌, ◌||◌, ℕ, not, false, true, map, reverse, option_map, option_copied, IsTrue, IfOk};
ghost use Rattle.std.specs.List.{list_all};
ghost use Rattle.pat_semantics_spec.specs.Programs.{is_among};
ghost use Rattle.pat_semantics_spec.specs.Configs.{env_refers};
ghost use Rattle.pat_semantics_spec.specs.WellFormed.{WellFormed};
ghost use Rattle.pat_type_system_spec.specs.Holdings.{held, control_held, as_holding};
ghost use Rattle.pat_type_system_spec.specs.Typed.{frames_refer, mailboxes_of};
ghost use Rattle.pat_core.specs.Views.{program_view};
ghost use Rattle.pat_types.specs.Views.{type_view};
ghost use Rattle.pat_derivations.specs.Views.{derivation_view};
ghost use Rattle.pat_reduce_values.specs.ValueViews.{env_view};
ghost use Rattle.pat_reduce.specs.Views.{config_view, threads_view};
ghost use Rattle.pat_reduce.specs.threads.ThreadViews.{control_view, frame_view, thread_view};
ghost use Rattle.pat_checkpoint_spec.specs.Numbers.{numbers_hold, env_lives, control_lives, thread_lives};
ghost use Rattle.pat_checkpoint_spec.specs.Mailboxes.{mailboxes_differ, env_differs, control_differs, thread_differs, values_of, control_values, is_returnable as is_returnable_by, frames_keep as frames_keep_by, thread_keeps as thread_keeps_by, order_holds as order_holds_by};
ghost use Rattle.pat_checkpoint_numbers.specs.Marked.{is_marked};
ghost use Rattle.pat_checkpoint_parts.specs.Keeping.{keeps_marked};
ghost use Rattle.pat_checkpoint_parts.specs.Tables.{type_or_unit};
ghost use Rattle.pat_checkpoint_parts.specs.Typed.{program_in, typing_in};

use crate::typing::Typing;
use pat_checkpoint_numbers::Marks;
use pat_core::Program;
use pat_derivations::{Derivation, LookUps};
use pat_reduce::{Config, Control, Frame, ThreadState, Value};
use pat_types::{MailboxType, TypeOf, Usage};
use std::alloc::{AllocError, Global};

/// Whether what a part holds as returnable is in no frame below it. Numbers hold, and mailboxes differ.
pub fn order_holds(
    alloc: Global,
    program: &Program,
    derivation: &Derivation,
    config: &Config,
) -> Result<bool, AllocError>
    requires well { WellFormed (program_view program.now) }
    requires numbers { IsTrue (numbers_hold (config_view config.now)) }
    requires differ { IsTrue (mailboxes_differ (config_view config.now)) }
    ensures { IfOk result (λ yes. yes ≡ order_holds_by (program_view program.now) (derivation_view derivation.now)
        (config_view config.now)) }
{
    let typing = Typing::new(alloc, program, derivation)?;
    let mut marks = Marks::new(alloc, config.live.as_slice())?;
    threads_keep(&typing, &mut marks, config.threads.as_slice())
}

fn threads_keep(
    typing: &Typing<'_>,
    marks: &mut Marks<'_>,
    threads: &[(u32, ThreadState)],
) -> Result<bool, AllocError>
    requires live { IsTrue (list_all (λ e. thread_lives marks.old.live.now e.1) (threads_view threads.now)) }
    requires differ { IsTrue (list_all (λ e. thread_differs e.1) (threads_view threads.now)) }
    ensures { IfOk result (λ yes. yes ≡ list_all (λ e. thread_keeps_by (program_in typing.now) (typing_in typing.now) e.1)
        (threads_view threads.now)) }
{
    for (_, state) in threads {
        if !thread_keeps(typing, marks, state)? {
            return Ok(false);
        }
    }
    Ok(true)
}

fn thread_keeps(
    typing: &Typing<'_>,
    marks: &mut Marks<'_>,
    state: &ThreadState,
) -> Result<bool, AllocError>
    requires live { IsTrue (thread_lives marks.old.live.now (thread_view state.now)) }
    requires differ { IsTrue (thread_differs (thread_view state.now)) }
    ensures live { marks.new.live.now ≡ marks.old.live.now }
    ensures yes { IfOk result (λ yes. yes ≡ thread_keeps_by (program_in typing.now) (typing_in typing.now) (thread_view state.now)) }
{
    marks.clear()?;
    let frames = state.frames.as_slice();
    let keep = frames_keep(typing, marks, frames);
    Ok(control_keeps(typing, marks, &state.control, frames) && keep)
}

/// Whether what each frame holds as returnable is in none below it, from the last one up. What the frames refer to is then marked.
fn frames_keep(typing: &Typing<'_>, marks: &mut Marks<'_>, frames: &[Frame]) -> bool
    requires live { IsTrue (list_all (λ f. env_lives marks.old.live.now f.env) (map frame_view frames.now)) }
    requires differ { IsTrue (list_all (λ f. env_differs f.env) (map frame_view frames.now)) }
    requires none { (b : ℕ) → is_marked marks.old b ≡ false }
    ensures live { marks.new.live.now ≡ marks.old.live.now }
    ensures marked { (b : ℕ) → is_marked marks.new b ≡ frames_refer b (map frame_view (reverse frames.now)) }
    ensures yes { result ≡ frames_keep_by (typing_in typing.now) (map frame_view (reverse frames.now)) }
{
    let mut keep = true;
    for frame in frames {
        let env = frame.env.as_slice();
        keep = part_keeps(typing, marks, frame.body, env) && keep;
        mark_all(marks, env);
    }
    keep
}

/// Marks the mailboxes among the values.
fn mark_all(marks: &mut Marks<'_>, env: &[(u32, Value)])
    requires { IsTrue (env_lives marks.old.live.now (env_view env.now)) }
    ensures live { marks.new.live.now ≡ marks.old.live.now }
    ensures marked { (b : ℕ) → is_marked marks.new b ≡ (env_refers b (env_view env.now) || is_marked marks.old b) }
{
    for (_, value) in env {
        if let Value::Mailbox(mailbox) = value {
            marks.mark(*mailbox);
        }
    }
}

/// Whether none of the mailboxes that a control holds as returnable is marked, where the frames below it stand from the last one up.
fn control_keeps(
    typing: &Typing<'_>,
    marks: &Marks<'_>,
    control: &Control,
    frames: &[Frame],
) -> bool
    requires live { IsTrue (control_lives marks.now.live.now (control_view control.now)) }
    requires differ { IsTrue (control_differs (control_view control.now)) }
    ensures { result ≡ keeps_marked (is_marked marks.now)
        (λ b. control_held (program_in typing.now) (typing_in typing.now) b (control_view control.now)
        (map frame_view (reverse frames.now))) (mailboxes_of (control_values (control_view control.now))) }
{
    match control {
        Control::Node { node, env } => part_keeps(typing, marks, *node, env.as_slice()),
        Control::Returned(Value::Mailbox(mailbox)) => {
            !is_mailbox(typing.wanted(frames)) || !marks.is_marked(*mailbox)
        }
        Control::Returned(_) => true,
    }
}

/// Whether the type is that of a mailbox. One that is returned is held as returnable.
fn is_mailbox(of: Option<&TypeOf>) -> bool
    ensures { result ≡ is_returnable_by (as_holding (type_or_unit (option_copied of.entry))) }
{
    matches!(of, Some(TypeOf::Mailbox { .. }))
}

/// Whether none of the mailboxes that a part at the node holds as returnable is marked.
fn part_keeps(typing: &Typing<'_>, marks: &Marks<'_>, node: u32, env: &[(u32, Value)]) -> bool
    requires live { IsTrue (env_lives marks.now.live.now (env_view env.now)) }
    requires differ { IsTrue (env_differs (env_view env.now)) }
    ensures { result ≡ keeps_marked (is_marked marks.now) (λ b. held ((typing_in typing.now).envs node) b (env_view env.now))
        (mailboxes_of (values_of (env_view env.now))) }
{
    let types = LookUps::new(typing.needs_of(node));
    let mut near = 0;
    for (variable, value) in env {
        if let Value::Mailbox(mailbox) = value {
            if !may_stay(marks, types.find(&mut near, *variable), *mailbox) {
                return false;
            }
        }
    }
    true
}

/// Whether the mailbox is not returnable by this type, or not marked.
fn may_stay(marks: &Marks<'_>, of: Option<&MailboxType>, mailbox: u32) -> bool
    requires { IsTrue (is_among mailbox marks.now.live.now) }
    ensures { result ≡ (not (is_returnable_by (option_map type_view (option_copied of.entry))) || not (is_marked marks.now mailbox)) }
{
    !is_returnable(of) || !marks.is_marked(mailbox)
}

fn is_returnable(of: Option<&MailboxType>) -> bool
    ensures { result ≡ is_returnable_by (option_map type_view (option_copied of.entry)) }
{
    match of {
        None => false,
        Some(of) => of.usage == Usage::Returnable,
    }
}
