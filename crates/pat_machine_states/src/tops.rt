// The top of a thread put in the place of its top frames, while those below stay where they are.
ghost use Rattle.std.specs.Prelude.{◌≡◌, ◌≤◌, length, Some, IfOk, OnOk, OnErr};
ghost use Rattle.pat_semantics_spec.specs.Configs.{Thread as ThreadOf, thread_at, with_thread};
ghost use Rattle.pat_reduce.specs.threads.ThreadViews.{thread_view};
ghost use Rattle.pat_machine_spec.specs.Tops.{below, over, with_below};
ghost use Rattle.pat_machine_threads.specs.Aside.{aside_view};
ghost use Rattle.pat_machine_states.specs.Asides.{IsAside};

use crate::IndexedConfig;
use pat_machine_threads::{Aside, with_room};
use pat_reduce::ThreadState;
use pat_sequences::let_go;
use std::alloc::{AllocError, Global};

impl IndexedConfig {
    /// Puts a state in the place of a thread's control and so many of its frames, those on top. An error changes nothing.
    pub fn put(
        &mut self,
        alloc: Global,
        thread: u32,
        gone: u32,
        top: ThreadState,
    ) -> Result<(), AllocError>
        requires { (s : ThreadOf) × (thread_at self.old.config thread ≡ Some s) }
        ensures ok { OnOk result ((s : ThreadOf) → thread_at self.old.config thread ≡ Some s
            → self.new.config ≡ with_thread self.old.config thread (over (thread_view top) (below gone s))) }
        ensures err { OnErr result (self.new.config ≡ self.old.config) }
        ensures places { self.new.places ≡ self.old.places }
    {
        let kept = self.set_aside(alloc, thread, top)?;
        self.cover(alloc, thread, gone, kept);
        Ok(())
    }

    // Puts a state in the place of a thread's, which is set aside with room for its frames and one more. An error changes nothing.
    pub(crate) fn set_aside(
        &mut self,
        alloc: Global,
        thread: u32,
        top: ThreadState,
    ) -> Result<Aside, AllocError>
        requires { (s : ThreadOf) × (thread_at self.old.config thread ≡ Some s) }
        ensures ok { IfOk result (λ kept. IsAside self.old.config thread top kept self.new.config) }
        ensures err { OnErr result (self.new.config ≡ self.old.config) }
        ensures places { self.new.places ≡ self.old.places }
    {
        let room = top.frames.len() + 1;
        let kept = self.swap(thread, top);
        match with_room(alloc, kept, room) {
            Ok(kept) => Ok(kept),
            Err(kept) => {
                let_go(self.swap(thread, kept));
                Err(AllocError)
            }
        }
    }

    // Puts the frames that were set aside, but for so many, below those of the thread, if it is there.
    pub(crate) fn cover(&mut self, alloc: Global, thread: u32, gone: u32, kept: Aside)
        requires { (s : ThreadOf) → thread_at self.old.config thread ≡ Some s → length s.frames ≤ kept.frames.1 }
        ensures covered { self.new.config ≡ with_below self.old.config thread (below gone (aside_view kept)) }
        ensures places { self.new.places ≡ self.old.places }
    {
        let Aside { rest, frames } = kept;
        let_go(rest);
        match self.placed.thread(thread) {
            Some(_) => self.placed.cover(alloc, thread, gone, frames),
            None => let_go(frames),
        }
    }
}
