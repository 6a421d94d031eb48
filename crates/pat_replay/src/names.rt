// Names that come and go: one walk over what names mailboxes serves both ways.
ghost use Rattle.std.specs.Prelude.{◌≡◌, ℕ, ◌+◌, ◌<◌, length, map, nat_eq, IsTrue};
ghost use Rattle.pat_semantics_spec.specs.WellFormed.{count_if};
ghost use Rattle.pat_semantics_spec.specs.Configs.{is_mailbox};
ghost use Rattle.pat_reduce.specs.threads.ThreadViews.{control_view, frame_view, thread_view};
ghost use Rattle.pat_reduce_values.specs.ValueViews.{env_view, value_view};
ghost use Rattle.pat_machine_spec.specs.Tops.{top_of};
ghost use Rattle.pat_machine_laws.specs.refcounts.Naming.{times_in_control, times_in_env, times_in_frames, times_in_thread, times_in_values};
ghost use Rattle.pat_machine_laws.specs.refcounts.Counting.{count_at};
ghost use Rattle.pat_replay.specs.Naming.{Changes};

use pat_machine_laws::join_laws;
use pat_machine_threads::top_frames;
use pat_reduce::{Control, Frame, ThreadState};
use pat_reduce_values::Value;

/// Whether names come or go.
#[derive(Clone, Copy, Drop)]
pub enum Change {
    Come,
    Go,
}

/// What the control of a thread and so many of its frames, those on top, name. It says whether all could be counted, as all the others here do.
pub fn change_top(times: &mut Vec<u32>, change: Change, state: &ThreadState, frames: u32) -> bool
    ensures { IsTrue result
        → Changes change times.old.items (λ a. times_in_thread a (top_of frames (thread_view state.now))) times.new.items }
{
    join_laws();
    change_parts(
        times,
        change,
        &state.control,
        top_frames(&state.frames, frames),
    )
}

/// What a thread names.
pub fn change_thread(times: &mut Vec<u32>, change: Change, state: &ThreadState) -> bool
    ensures { IsTrue result → Changes change times.old.items (λ a. times_in_thread a (thread_view state.now)) times.new.items }
{
    join_laws();
    change_parts(times, change, &state.control, state.frames.as_slice())
}

fn change_parts(times: &mut Vec<u32>, change: Change, control: &Control, frames: &[Frame]) -> bool
    ensures { IsTrue result → Changes change times.old.items
        (λ a. times_in_control a (control_view control.now) + times_in_frames a (map frame_view frames.now)) times.new.items }
{
    if !change_control(times, change, control) {
        return false;
    }
    change_frames(times, change, frames)
}

fn change_control(times: &mut Vec<u32>, change: Change, control: &Control) -> bool
    ensures { IsTrue result → Changes change times.old.items (λ a. times_in_control a (control_view control.now)) times.new.items }
{
    match control {
        Control::Node { env, .. } => change_env(times, change, env.as_slice()),
        Control::Returned(value) => change_value(times, change, value),
    }
}

fn change_frames(times: &mut Vec<u32>, change: Change, frames: &[Frame]) -> bool
    ensures { IsTrue result → Changes change times.old.items (λ a. times_in_frames a (map frame_view frames.now)) times.new.items }
{
    for frame in frames {
        if !change_env(times, change, frame.env.as_slice()) {
            return false;
        }
    }
    true
}

fn change_env(times: &mut Vec<u32>, change: Change, env: &[(u32, Value)]) -> bool
    ensures { IsTrue result → Changes change times.old.items (λ a. times_in_env a (env_view env.now)) times.new.items }
{
    for entry in env {
        if !change_value(times, change, &entry.1) {
            return false;
        }
    }
    true
}

/// What values name.
pub fn change_values(times: &mut Vec<u32>, change: Change, values: &[Value]) -> bool
    ensures { IsTrue result → Changes change times.old.items (λ a. times_in_values a (map value_view values.now)) times.new.items }
{
    for value in values {
        if !change_value(times, change, value) {
            return false;
        }
    }
    true
}

fn change_value(times: &mut Vec<u32>, change: Change, value: &Value) -> bool
    ensures { IsTrue result → Changes change times.old.items (λ a. count_if (is_mailbox a (value_view value.now))) times.new.items }
{
    match value {
        Value::Mailbox(mailbox) => change_times(times, change, *mailbox as usize),
        _ => true,
    }
}

// One name of the mailbox.
fn change_times(times: &mut Vec<u32>, change: Change, mailbox: usize) -> bool
    ensures { IsTrue result → Changes change times.old.items (λ a. count_if (nat_eq a mailbox)) times.new.items }
{
    if mailbox >= times.len() {
        return false;
    }
    match change {
        Change::Come => add_one(times, mailbox),
        Change::Go => take_one(times, mailbox),
    }
}

fn add_one(times: &mut Vec<u32>, mailbox: usize) -> bool
    requires { mailbox < length times.old.items }
    ensures { IsTrue result → (a : ℕ) → count_at times.new.items a ≡ count_at times.old.items a + count_if (nat_eq a mailbox) }
{
    match times[mailbox].checked_add(1) {
        Some(next) => {
            times[mailbox] = next;
            true
        }
        None => false,
    }
}

fn take_one(times: &mut Vec<u32>, mailbox: usize) -> bool
    requires { mailbox < length times.old.items }
    ensures { IsTrue result → (a : ℕ) → count_at times.new.items a + count_if (nat_eq a mailbox) ≡ count_at times.old.items a }
{
    match times[mailbox].checked_sub(1) {
        Some(next) => {
            times[mailbox] = next;
            true
        }
        None => false,
    }
}
