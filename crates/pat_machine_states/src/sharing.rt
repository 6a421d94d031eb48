// The shared step that ends a commit.
ghost use Rattle.std.specs.Prelude.{◌≡◌, ℕ, ◌<◌, ◌⊎◌, [], length, Some, OnOk, OnErr};
ghost use Rattle.pat_semantics_spec.specs.Orders.{IsOrdered};
ghost use Rattle.pat_semantics_spec.specs.Configs.{Thread as ThreadOf, thread_at, with_thread};
ghost use Rattle.pat_semantics_spec.specs.Steps.{ActReceive, message_at};
ghost use Rattle.pat_core.specs.Views.{program_view};
ghost use Rattle.pat_reduce.specs.threads.ThreadViews.{thread_view};
ghost use Rattle.pat_machine_spec.specs.Commits.{Shares};
ghost use Rattle.pat_machine_spec.specs.Tops.{below, over};
ghost use Rattle.pat_machine_spec.specs.Machines.{HasRoom, IsTypedBySome};
ghost use Rattle.pat_machine_indexes.specs.refcounts.Counting.{TellsAlone};
ghost use Rattle.pat_machine_indexes.specs.refcounts.Telling.{says_alone};
ghost use Rattle.pat_machine_states.specs.Alone.{StandsAlone};
ghost use Rattle.pat_machine_states.specs.Boxes.{HasPlace};
ghost use Rattle.pat_machine_states.specs.Stepping.{ReferToLive};
ghost use Rattle.pat_machine_states.specs.Taking.{taken_act, taken_message};

use crate::IndexedConfig;
use pat_machine_indexes::Counted;
use pat_machine_threads::taken_up;
use pat_reduce::{Act, Message, Step, StepError, ThreadState};
use pat_reduce_values::Executable;
use pat_sequences::let_go;
use std::alloc::{AllocError, Global};

/// What a shared step took: its act, and the message that it received, if it did.
#[derive(Drop)]
pub struct Taken {
    pub act: Act,
    pub message: Option<Message>,
}

impl IndexedConfig {
    /// Puts a state in the place of a thread's control and so many of its frames, those on top, and takes the shared step
    /// that is open then, if one is: `taken` says which. Counts tell whether the thread may free a mailbox then.
    /// An error changes nothing of the configuration.
    pub fn share(
        &mut self,
        alloc: Global,
        code: &Executable,
        limit: u32,
        thread: u32,
        gone: u32,
        top: ThreadState,
        counted: Counted<'_>,
        taken: &mut Option<Taken>,
    ) -> Result<(), AllocError>
        requires there { (s : ThreadOf) × (thread_at self.old.config thread ≡ Some s) }
        requires room { HasRoom self.old.config }
        requires place { HasPlace self.old limit }
        requires typed { (s : ThreadOf) → thread_at self.old.config thread ≡ Some s
            → IsTypedBySome (program_view code.now.program) (with_thread self.old.config thread (over (thread_view top) (below gone s))) }
        requires frame { (s : ThreadOf) → thread_at self.old.config thread ≡ Some s
            → (0 < length (thread_view top).frames) ⊎ (below gone s ≡ []) }
        requires alone { (s : ThreadOf) → thread_at self.old.config thread ≡ Some s
            → TellsAlone (program_view code.now.program) (with_thread self.old.config thread (over (thread_view top) (below gone s))) thread
            (over (thread_view top) (below gone s)) (says_alone (program_view code.now.program) counted (thread_view top)) }
        ensures ok { OnOk result ((s : ThreadOf) → thread_at self.old.config thread ≡ Some s
            → Shares (program_view code.now.program) limit
            (with_thread self.old.config thread (over (thread_view top) (below gone s))) thread (taken_act taken.new) self.new.config) }
        ensures message { OnOk result ((k : ℕ) → taken_act taken.new ≡ Some (ActReceive k)
            → taken_message taken.new ≡ message_at self.old.config k) }
        ensures err { OnErr result (self.new.config ≡ self.old.config) }
        ensures places { self.new.places ≡ self.old.places }
    {
        if self.placed.has_at_most(thread, gone) {
            return self.share_whole(alloc, code, limit, thread, top, counted, taken);
        }
        let kept = self.set_aside(alloc, thread, top)?;
        match self.take_open(alloc, code, limit, thread, counted, taken) {
            Ok(()) => {
                self.cover(alloc, thread, gone, kept);
                Ok(())
            }
            Err(AllocError) => {
                let_go(self.swap(thread, taken_up(kept)));
                Err(AllocError)
            }
        }
    }

    // The same where none of the thread's frames stay.
    fn share_whole(
        &mut self,
        alloc: Global,
        code: &Executable,
        limit: u32,
        thread: u32,
        top: ThreadState,
        counted: Counted<'_>,
        taken: &mut Option<Taken>,
    ) -> Result<(), AllocError>
        requires there { (s : ThreadOf) × (thread_at self.old.config thread ≡ Some s) }
        requires room { HasRoom self.old.config }
        requires place { HasPlace self.old limit }
        requires typed { IsTypedBySome (program_view code.now.program) (with_thread self.old.config thread (thread_view top)) }
        requires alone { TellsAlone (program_view code.now.program) (with_thread self.old.config thread (thread_view top)) thread
            (thread_view top) (says_alone (program_view code.now.program) counted (thread_view top)) }
        ensures ok { OnOk result (Shares (program_view code.now.program) limit (with_thread self.old.config thread (thread_view top)) thread
            (taken_act taken.new) self.new.config) }
        ensures message { OnOk result ((k : ℕ) → taken_act taken.new ≡ Some (ActReceive k)
            → taken_message taken.new ≡ message_at self.old.config k) }
        ensures err { OnErr result (self.new.config ≡ self.old.config) }
        ensures places { self.new.places ≡ self.old.places }
    {
        let kept = self.swap(thread, top);
        match self.take_open(alloc, code, limit, thread, counted, taken) {
            Ok(()) => {
                let_go(kept);
                Ok(())
            }
            Err(AllocError) => {
                let_go(self.swap(thread, kept));
                Err(AllocError)
            }
        }
    }

    /// Takes the step of the thread that is open, if one is: `taken` says which, so that it isn't moved from call to call.
    /// Counts tell whether the thread may free a mailbox. An error changes nothing of the configuration.
    pub fn take_open(
        &mut self,
        alloc: Global,
        code: &Executable,
        limit: u32,
        thread: u32,
        counted: Counted<'_>,
        taken: &mut Option<Taken>,
    ) -> Result<(), AllocError>
        requires room { HasRoom self.old.config }
        requires place { HasPlace self.old limit }
        requires ordered { IsOrdered self.old.config }
        requires live { ReferToLive self.old.config }
        requires alone { StandsAlone (program_view code.now.program) self.old.config thread counted }
        ensures ok { OnOk result (Shares (program_view code.now.program) limit self.old.config thread
            (taken_act taken.new) self.new.config) }
        ensures message { OnOk result ((k : ℕ) → taken_act taken.new ≡ Some (ActReceive k)
            → taken_message taken.new ≡ message_at self.old.config k) }
        ensures err { OnErr result (self.new.config ≡ self.old.config) }
        ensures places { self.new.places ≡ self.old.places }
    {
        let Some(act) = self.open_act(code, limit, thread, counted) else {
            *taken = None;
            return Ok(());
        };
        match self.step(alloc, code, &Step { thread, act }) {
            Ok(message) => {
                *taken = Some(Taken { act, message });
                Ok(())
            }
            // The act is enabled.
            Err(StepError::Disabled) => unreachable!(),
            Err(StepError::NoMemory) => Err(AllocError),
        }
    }
}
