// The state of a thread set aside, while another stands in its place.
ghost use Rattle.std.specs.Prelude.{◌≡◌, map, IfOk, IfErr};
ghost use Rattle.pat_semantics_spec.specs.Steps.{thread_of};
ghost use Rattle.pat_reduce.specs.threads.ThreadViews.{control_view, frame_view, thread_view};
ghost use Rattle.pat_machine_threads.specs.Aside.{aside_view};

use pat_reduce::{Frame, ThreadState};
use pat_sequences::{Base, Stack, let_go};
use std::alloc::Global;
use std::mem;

/// The kept state of a thread, set aside: what is left of it without its frames, and these, with room for further ones.
#[derive(Drop)]
pub struct Aside {
    pub rest: ThreadState,
    pub frames: Base<Frame>,
}

/// Sets a state aside, with so much room. An error hands it back.
pub fn with_room(alloc: Global, state: ThreadState, room: usize) -> Result<Aside, ThreadState>
    ensures ok { IfOk result (λ kept. (aside_view kept ≡ thread_view state) × (kept.frames.1 ≡ room)) }
    ensures err { IfErr result (λ own. thread_view own ≡ thread_view state) }
{
    let mut rest = state;
    let frames = mem::replace(&mut rest.frames, Stack::new(alloc));
    match Base::new(frames, room) {
        Ok(frames) => Ok(Aside { rest, frames }),
        Err(frames) => Err(with_frames(rest, frames)),
    }
}

/// The state that was set aside.
pub fn taken_up(kept: Aside) -> ThreadState
    ensures { thread_view result ≡ aside_view kept }
{
    let Aside { rest, frames } = kept;
    with_frames(rest, frames.into_stack())
}

// The state with these frames in place of its own.
fn with_frames(state: ThreadState, frames: Stack<Frame>) -> ThreadState
    ensures { thread_view result ≡ thread_of (control_view state.control) (map frame_view frames) }
{
    let mut state = state;
    let_go(mem::replace(&mut state.frames, frames));
    state
}
