// Copies of the states of threads.
ghost use Rattle.std.specs.Prelude.{◌≡◌, map, reverse, IfOk};
ghost use Rattle.pat_machine_spec.specs.Tops.{top_of};
ghost use Rattle.pat_reduce.specs.threads.ThreadViews.{control_view, frame_view, thread_view};

use crate::tops::top_frames;
use pat_reduce::{Control, Frame, ThreadState};
use pat_reduce_values::copied;
use pat_sequences::Stack;
use std::alloc::{AllocError, Global};

/// A second state, the same.
pub fn copy_state(alloc: Global, state: &ThreadState) -> Result<ThreadState, AllocError>
    ensures { IfOk result (λ s. thread_view s ≡ thread_view state.now) }
{
    let control = copy_control(alloc, &state.control)?;
    let frames = copy_frames(alloc, state.frames.as_slice())?;
    Ok(ThreadState { control, frames })
}

/// A second state, with at most so many of the frames, those on top.
pub fn copy_top(alloc: Global, state: &ThreadState, most: u32) -> Result<ThreadState, AllocError>
    ensures { IfOk result (λ s. thread_view s ≡ top_of most (thread_view state.now)) }
{
    let control = copy_control(alloc, &state.control)?;
    let frames = copy_frames(alloc, top_frames(&state.frames, most))?;
    Ok(ThreadState { control, frames })
}

fn copy_control(alloc: Global, control: &Control) -> Result<Control, AllocError>
    ensures { IfOk result (λ k. control_view k ≡ control_view control.now) }
{
    match control {
        Control::Node { node, env } => {
            let env = copied(alloc, env.as_slice())?;
            Ok(Control::Node { node: *node, env })
        }
        Control::Returned(value) => Ok(Control::Returned(value.copy(alloc)?)),
    }
}

/// The stack of these frames, which stand from the bottom up.
fn copy_frames(alloc: Global, frames: &[Frame]) -> Result<Stack<Frame>, AllocError>
    ensures { IfOk result (λ own. map frame_view own ≡ map frame_view (reverse frames.now)) }
{
    let mut own = Stack::new(alloc);
    for frame in frames {
        own.push(copy_frame(alloc, frame)?)?;
    }
    Ok(own)
}

pub(crate) fn copy_frame(alloc: Global, frame: &Frame) -> Result<Frame, AllocError>
    ensures { IfOk result (λ f. frame_view f ≡ frame_view frame.now) }
{
    let env = copied(alloc, frame.env.as_slice())?;
    Ok(Frame {
        var: frame.var,
        body: frame.body,
        env,
    })
}
