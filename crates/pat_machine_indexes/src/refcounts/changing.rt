// RefCounts that come and go: one walk over what names them serves both ways.
ghost use Rattle.std.specs.Prelude.{ℕ, map, nat_eq};
ghost use Rattle.pat_semantics_spec.specs.WellFormed.{count_if};
ghost use Rattle.pat_semantics_spec.specs.Configs.{is_mailbox};
ghost use Rattle.pat_reduce.specs.threads.ThreadViews.{control_view, frame_view, thread_view};
ghost use Rattle.pat_reduce_values.specs.ValueViews.{env_view, value_view};
ghost use Rattle.pat_machine_spec.specs.Tops.{top_of};
ghost use Rattle.pat_machine_laws.specs.refcounts.Naming.{times_in_control, times_in_env, times_in_frames, times_in_thread, times_in_values};
ghost use Rattle.pat_machine_indexes.specs.refcounts.Changes.{Changes, Fits};

use crate::refcounts::RefCounts;
use pat_machine_laws::join_laws;
use pat_machine_threads::top_frames;
use pat_reduce::{Control, Frame, ThreadState};
use pat_reduce_values::Value;

/// Whether names come or go.
#[derive(Clone, Copy, Drop)]
pub(crate) enum Change {
    Come,
    Go,
}

impl RefCounts {
    // What the control of a thread and so many of its frames, those on top, name.
    pub(crate) fn change_top(&mut self, change: Change, state: &ThreadState, frames: u32)
        requires { Fits change self.old (λ a. times_in_thread a (top_of frames (thread_view state.now))) }
        ensures { Changes change self.old (λ a. times_in_thread a (top_of frames (thread_view state.now))) self.new }
    {
        join_laws();
        self.change_control(change, &state.control);
        self.change_frames(change, top_frames(&state.frames, frames));
    }

    fn change_control(&mut self, change: Change, control: &Control)
        requires { Fits change self.old (λ a. times_in_control a (control_view control.now)) }
        ensures { Changes change self.old (λ a. times_in_control a (control_view control.now)) self.new }
    {
        match control {
            Control::Node { env, .. } => self.change_env(change, env.as_slice()),
            Control::Returned(value) => self.change_value(change, value),
        }
    }

    fn change_frames(&mut self, change: Change, frames: &[Frame])
        requires { Fits change self.old (λ a. times_in_frames a (map frame_view frames.now)) }
        ensures { Changes change self.old (λ a. times_in_frames a (map frame_view frames.now)) self.new }
    {
        for frame in frames {
            self.change_env(change, frame.env.as_slice());
        }
    }

    fn change_env(&mut self, change: Change, env: &[(u32, Value)])
        requires { Fits change self.old (λ a. times_in_env a (env_view env.now)) }
        ensures { Changes change self.old (λ a. times_in_env a (env_view env.now)) self.new }
    {
        for entry in env {
            self.change_value(change, &entry.1);
        }
    }

    // What values name.
    pub(crate) fn change_values(&mut self, change: Change, values: &[Value])
        requires { Fits change self.old (λ a. times_in_values a (map value_view values.now)) }
        ensures { Changes change self.old (λ a. times_in_values a (map value_view values.now)) self.new }
    {
        for value in values {
            self.change_value(change, value);
        }
    }

    fn change_value(&mut self, change: Change, value: &Value)
        requires { Fits change self.old (λ a. count_if (is_mailbox a (value_view value.now))) }
        ensures { Changes change self.old (λ a. count_if (is_mailbox a (value_view value.now))) self.new }
    {
        match value {
            Value::Mailbox(mailbox) => self.change_times(change, *mailbox),
            _ => {}
        }
    }

    // One name of the mailbox.
    fn change_times(&mut self, change: Change, mailbox: u32)
        requires { Fits change self.old (λ a. count_if (nat_eq a mailbox)) }
        ensures { Changes change self.old (λ a. count_if (nat_eq a mailbox)) self.new }
    {
        match change {
            Change::Come => self.times[mailbox as usize] += 1,
            Change::Go => self.times[mailbox as usize] -= 1,
        }
    }
}
