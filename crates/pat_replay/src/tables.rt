// A configuration in tables, as a machine keeps it, so that a step costs what it costs in a run.
ghost use Rattle.std.specs.Prelude.{◌≡◌, ◌<◌, true, false, length, Some, IfOk, OnOk, IsTrue};
ghost use Rattle.pat_semantics_spec.specs.Configs.{Thread as ThreadOf, has_pending, start, thread_at};
ghost use Rattle.pat_semantics_spec.specs.Programs.{Program, is_among};
ghost use Rattle.pat_semantics_spec.specs.Orders.{IsOrdered};
ghost use Rattle.pat_semantics_spec.specs.Steps.{ActFree, step as after_step};
ghost use Rattle.pat_semantics_laws.specs.Laws.{IsEnabled};
ghost use Rattle.pat_core.specs.Views.{program_view};
ghost use Rattle.pat_reduce.specs.Views.{step_view};
ghost use Rattle.pat_machine_spec.specs.Machines.{HasRoom};
ghost use Rattle.pat_machine_threads.specs.Settling.{IsRunOnTop};
ghost use Rattle.pat_machine_states.specs.Stepping.{SendsToLive};
ghost use Rattle.pat_replay.specs.Replays.{LeadsTo, LocalsGive};
ghost use Rattle.pat_replay.specs.Naming.{CanTake, Knows};

use crate::counting::Names;
use pat_machine_laws::test_laws;
use pat_machine_states::IndexedConfig;
use pat_machine_threads::{Settled, settle_top};
use pat_reduce::{Act, Step, StepError, guard_of};
use pat_reduce_values::Executable;
use pat_sequences::let_go;
use std::alloc::{AllocError, Global};

/// A configuration in tables, and how often each mailbox is named there.
#[derive(Drop)]
pub struct Tables {
    pub state: IndexedConfig,
    pub names: Names,
}

impl Tables {
    /// The start of a program, with so many places for pending messages.
    pub fn start(alloc: Global, code: &Executable, places: u32) -> Result<Tables, AllocError>
        ensures start { IfOk result (λ t. t.state.config ≡ start (program_view code.now.program)) }
        ensures known { IfOk result (λ t. Knows t.names t.state.config) }
    {
        let state = IndexedConfig::start(alloc, code, places)?;
        Ok(Tables {
            state,
            names: Names::new(alloc),
        })
    }

    /// So many local steps of a thread.
    pub fn run_locals(
        &mut self,
        alloc: Global,
        code: &Executable,
        thread: u32,
        count: u32,
    ) -> Result<(), StepError>
        requires { Knows self.old.names self.old.state.config }
        ensures gives { LocalsGive (program_view code.now.program) self.old.state.config thread count self.new.state.config result }
        ensures known { OnOk result (Knows self.new.names self.new.state.config) }
    {
        if count == 0 {
            return Ok(());
        }
        let Some(kept) = self.state.thread(thread) else {
            return Err(StepError::Disabled);
        };
        match settle_top(alloc, code, kept, count) {
            Ok(settled) => self.put(alloc, thread, count, settled),
            Err(AllocError) => Err(StepError::NoMemory),
        }
    }

    // Puts what local steps made of the top of a thread in its place, if they are so many.
    fn put(
        &mut self,
        alloc: Global,
        thread: u32,
        count: u32,
        settled: Settled,
    ) -> Result<(), StepError>
        requires there { (s : ThreadOf) × (thread_at self.old.state.config thread ≡ Some s) }
        requires known { Knows self.old.names self.old.state.config }
        ensures gives { (p : Program) → ((s : ThreadOf) → thread_at self.old.state.config thread ≡ Some s → IsRunOnTop p count s settled)
            → LocalsGive p self.old.state.config thread count self.new.state.config result }
        ensures known { OnOk result (Knows self.new.names self.new.state.config) }
    {
        let Settled { end, gone, steps } = settled;
        if steps < count {
            let_go(end);
            return Err(StepError::Disabled);
        }
        match self.state.thread(thread) {
            Some(kept) => self.names.exchange_top(kept, gone, &end),
            // The thread is there.
            None => unreachable!(),
        }
        match self.state.put(alloc, thread, gone, end) {
            Ok(()) => Ok(()),
            Err(AllocError) => Err(StepError::NoMemory),
        }
    }

    /// Whether the tables can take the step, or tell that it isn't enabled. They know of live mailboxes alone, and whether a mailbox may
    /// be freed where names are counted, and the thread's control alone names it.
    pub fn can_take(&self, code: &Executable, step: &Step) -> bool
        requires ordered { IsOrdered self.now.state.config }
        requires known { Knows self.now.names self.now.state.config }
        ensures { IsTrue result → CanTake (program_view code.now.program) self.now.state (step_view step.now) }
    {
        match step.act {
            Act::Local => false,
            Act::Send => self.can_send(code, step.thread),
            Act::Free => self.may_free(code, step.thread),
            _ => true,
        }
    }

    // Whether the thread sends to a live mailbox, and its message finds a place.
    fn can_send(&self, code: &Executable, thread: u32) -> bool
        ensures place { IsTrue result → length self.now.state.config.messages < self.now.state.places }
        ensures live { IsTrue result → SendsToLive (program_view code.now.program) self.now.state.config thread }
    {
        if !self.state.has_place() {
            return false;
        }
        self.state.sends_to_live(code, thread)
    }

    // Whether the thread is known to be able to free the mailbox that it guards.
    fn may_free(&self, code: &Executable, thread: u32) -> bool
        requires ordered { IsOrdered self.now.state.config }
        requires known { Knows self.now.names self.now.state.config }
        ensures { IsTrue result
            → IsEnabled (program_view code.now.program) self.now.state.config (record { thread = thread; act = ActFree }) }
    {
        test_laws();
        let Some(state) = self.state.thread(thread) else {
            return false;
        };
        let Some(guard) = guard_of(code, &state.control) else {
            return false;
        };
        let Some(_) = guard.free else {
            return false;
        };
        if !self.has_empty(guard.mailbox) {
            return false;
        }
        self.names.tell_alone(&state.control, guard.mailbox)
    }

    // Whether the mailbox is live and has no message.
    fn has_empty(&self, mailbox: u32) -> bool
        ensures live { IsTrue result → is_among mailbox self.now.state.config.live ≡ true }
        ensures empty { IsTrue result → has_pending mailbox self.now.state.config.messages ≡ false }
    {
        if self.state.has_pending(mailbox) {
            return false;
        }
        self.state.is_live(mailbox)
    }

    /// Takes a shared step that the tables can take, or tells that it isn't enabled.
    pub fn take(&mut self, alloc: Global, code: &Executable, step: &Step) -> Result<(), StepError>
        requires room { HasRoom self.old.state.config }
        requires ordered { IsOrdered self.old.state.config }
        requires can { CanTake (program_view code.now.program) self.old.state (step_view step.now) }
        requires known { Knows self.old.names self.old.state.config }
        ensures gives { LeadsTo (after_step (program_view code.now.program) self.old.state.config (step_view step.now))
            self.new.state.config result }
        ensures known { OnOk result (Knows self.new.names self.new.state.config) }
    {
        let newcomer = self.state.threads_made();
        self.names.leave_control(&self.state, step.thread);
        match self.state.step(alloc, code, step) {
            Ok(message) => {
                self.names.follow(&self.state, step, newcomer, &message);
                let_go(message);
                Ok(())
            }
            Err(error) => Err(error),
        }
    }
}
