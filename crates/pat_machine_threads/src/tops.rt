// The frames on top of a thread.
ghost use Rattle.std.specs.Prelude.{◌≡◌, ◌==◌, ◌<◌, get_or, length, reverse, take};
ghost use Rattle.pat_reduce.specs.threads.ThreadViews.{thread_view};
ghost use Rattle.pat_machine_spec.specs.Tops.{below};

use pat_reduce::{Frame, ThreadState};
use pat_sequences::Stack;

/// At most so many frames, those on top, from the bottom up.
pub fn top_frames(frames: &Stack<Frame>, most: u32) -> &[Frame]
    ensures { reverse result.now ≡ take most frames.now }
{
    let all = frames.as_slice();
    &all[all.len().saturating_sub(most as usize)..]
}

/// The first frame below so many.
pub(crate) fn frame_below(frames: &Stack<Frame>, gone: u32) -> &Frame
    requires { gone < length frames.now }
    ensures { result.now ≡ get_or frames.now gone result.now }
{
    let all = frames.as_slice();
    &all[all.len() - 1 - gone as usize]
}

/// Whether a state has no frame below so many.
pub fn has_at_most(state: &ThreadState, frames: u32) -> bool
    ensures { result ≡ (length (below frames (thread_view state.now)) == 0) }
{
    state.frames.len() <= frames as usize
}
