// The mailboxes that a thread names.
ghost use Rattle.std.specs.Prelude.{map, OnOk};
ghost use Rattle.pat_semantics_spec.specs.WellFormed.{count_if};
ghost use Rattle.pat_semantics_spec.specs.Configs.{is_mailbox};
ghost use Rattle.pat_reduce.specs.threads.ThreadViews.{control_view, frame_view, thread_view};
ghost use Rattle.pat_reduce_values.specs.ValueViews.{env_view, value_view};
ghost use Rattle.pat_machine_spec.specs.Tops.{top_of};
ghost use Rattle.pat_machine_laws.specs.refcounts.Naming.{times_in_control, times_in_env, times_in_frames, times_in_thread};
ghost use Rattle.pat_machine_indexes.specs.refcounts.Listing.{Lists};

use pat_machine_laws::join_laws;
use pat_machine_threads::top_frames;
use pat_reduce::{Control, Frame, ThreadState};
use pat_reduce_values::Value;
use std::alloc::AllocError;

/// Lists at least the mailboxes that the control of a thread and so many of its frames name, behind what is listed. An error may have listed some.
pub fn list_top(state: &ThreadState, frames: u32, named: &mut Vec<u32>) -> Result<(), AllocError>
    ensures { OnOk result (Lists named.old.items (λ a. times_in_thread a (top_of frames (thread_view state.now))) named.new.items) }
{
    join_laws();
    list_control(&state.control, named)?;
    list_frames(top_frames(&state.frames, frames), named)?;
    Ok(())
}

fn list_control(control: &Control, named: &mut Vec<u32>) -> Result<(), AllocError>
    ensures { OnOk result (Lists named.old.items (λ a. times_in_control a (control_view control.now)) named.new.items) }
{
    match control {
        Control::Node { env, .. } => list_env(env.as_slice(), named),
        Control::Returned(value) => list_value(value, named),
    }
}

fn list_frames(frames: &[Frame], named: &mut Vec<u32>) -> Result<(), AllocError>
    ensures { OnOk result (Lists named.old.items (λ a. times_in_frames a (map frame_view frames.now)) named.new.items) }
{
    for frame in frames {
        list_env(frame.env.as_slice(), named)?;
    }
    Ok(())
}

fn list_env(env: &[(u32, Value)], named: &mut Vec<u32>) -> Result<(), AllocError>
    ensures { OnOk result (Lists named.old.items (λ a. times_in_env a (env_view env.now)) named.new.items) }
{
    for entry in env {
        list_value(&entry.1, named)?;
    }
    Ok(())
}

fn list_value(value: &Value, named: &mut Vec<u32>) -> Result<(), AllocError>
    ensures { OnOk result (Lists named.old.items (λ a. count_if (is_mailbox a (value_view value.now))) named.new.items) }
{
    match value {
        Value::Mailbox(mailbox) => named.push(*mailbox)?,
        _ => {}
    }
    Ok(())
}
