// The configuration that a replay goes through, in tables or plain.
ghost use Rattle.std.specs.Prelude.{◌≡◌, nat_eq, option_copied, option_map, IfOk, OnOk, IsTrue};
ghost use Rattle.std.specs.Map.{keys_of, lookup};
ghost use Rattle.pat_semantics_spec.specs.Configs.{thread_at};
ghost use Rattle.pat_semantics_spec.specs.Orders.{AscendsFrom, IsOrdered};
ghost use Rattle.pat_semantics_spec.specs.Programs.{Program};
ghost use Rattle.pat_semantics_spec.specs.Steps.{Step as StepOf, step as after_step};
ghost use Rattle.pat_core.specs.Views.{program_view};
ghost use Rattle.pat_reduce.specs.Views.{config_view, step_view, threads_view};
ghost use Rattle.pat_reduce.specs.threads.ThreadViews.{thread_view};
ghost use Rattle.pat_replay.specs.Kept.{kept_view, IsKept, TakesAsKept};
ghost use Rattle.pat_replay.specs.Replays.{HasTaken, LeadsTo, LocalsGive};

use crate::places::{place_among, state_at};
use crate::plain;
use crate::tables::Tables;
use pat_reduce::{Config, Step, StepError, ThreadState};
use pat_reduce_values::Executable;
use pat_sequences::let_go;
use std::alloc::{AllocError, Global};
use std::mem;

/// A configuration, in tables from a program's start on, and plain where these can't tell a step, or numbers are sparse.
#[derive(Drop)]
pub enum Kept {
    InTables(Tables),
    Plain(Config),
}

impl Kept {
    /// The state of a thread.
    pub fn thread(&self, thread: u32) -> Option<&ThreadState>
        requires { IsOrdered (kept_view self.now) }
        ensures { option_map thread_view (option_copied result) ≡ thread_at (kept_view self.now) thread }
    {
        match self {
            Kept::InTables(tables) => tables.state.thread(thread),
            Kept::Plain(config) => thread_among(config.threads.as_slice(), thread),
        }
    }

    /// The plain configuration.
    pub fn into_config(self, alloc: Global) -> Result<Config, AllocError>
        ensures { IfOk result (λ c. config_view c ≡ kept_view self) }
    {
        match self {
            Kept::InTables(tables) => tables.state.copy(alloc),
            Kept::Plain(config) => Ok(config),
        }
    }

    /// So many local steps of a thread.
    pub fn run_locals(
        &mut self,
        alloc: Global,
        code: &Executable,
        thread: u32,
        count: u32,
    ) -> Result<(), StepError>
        requires taken { HasTaken (kept_view self.old) 4294967294 }
        requires ordered { IsOrdered (kept_view self.old) }
        requires kept { IsKept self.old }
        ensures gives { LocalsGive (program_view code.now.program) (kept_view self.old) thread count (kept_view self.new) result }
        ensures kept { OnOk result (IsKept self.new) }
    {
        match self {
            Kept::InTables(tables) => tables.run_locals(alloc, code, thread, count),
            Kept::Plain(config) => plain::run_locals(alloc, code, config, thread, count),
        }
    }

    /// A step of a thread.
    pub fn take(&mut self, alloc: Global, code: &Executable, step: &Step) -> Result<(), StepError>
        requires taken { HasTaken (kept_view self.old) 4294967294 }
        requires ordered { IsOrdered (kept_view self.old) }
        requires kept { IsKept self.old }
        ensures gives { LeadsTo (after_step (program_view code.now.program) (kept_view self.old) (step_view step.now))
            (kept_view self.new) result }
        ensures kept { OnOk result (IsKept self.new) }
    {
        if self.can_take(code, step) {
            return self.take_as_kept(alloc, code, step);
        }
        self.make_plain(alloc)?;
        self.take_as_kept(alloc, code, step)
    }

    // Whether the step can be taken, or refused, by the configuration as it is kept.
    fn can_take(&self, code: &Executable, step: &Step) -> bool
        requires ordered { IsOrdered (kept_view self.now) }
        requires kept { IsKept self.now }
        ensures { IsTrue result → TakesAsKept (program_view code.now.program) self.now (step_view step.now) }
    {
        match self {
            Kept::InTables(tables) => tables.can_take(code, step),
            Kept::Plain(_) => true,
        }
    }

    fn take_as_kept(
        &mut self,
        alloc: Global,
        code: &Executable,
        step: &Step,
    ) -> Result<(), StepError>
        requires taken { HasTaken (kept_view self.old) 4294967294 }
        requires ordered { IsOrdered (kept_view self.old) }
        requires kept { IsKept self.old }
        requires can { TakesAsKept (program_view code.now.program) self.old (step_view step.now) }
        ensures gives { LeadsTo (after_step (program_view code.now.program) (kept_view self.old) (step_view step.now))
            (kept_view self.new) result }
        ensures kept { OnOk result (IsKept self.new) }
    {
        match self {
            Kept::InTables(tables) => tables.take(alloc, code, step),
            Kept::Plain(config) => plain::take(alloc, code, config, step),
        }
    }

    // The configuration, plain from here on.
    fn make_plain(&mut self, alloc: Global) -> Result<(), AllocError>
        ensures same { OnOk result (kept_view self.new ≡ kept_view self.old) }
        ensures kept { OnOk result (IsKept self.new) }
        ensures takes { OnOk result ((p : Program) (k : StepOf) → TakesAsKept p self.new k) }
    {
        if let Kept::InTables(tables) = self {
            let config = tables.state.copy(alloc)?;
            let_go(mem::replace(self, Kept::Plain(config)));
        }
        Ok(())
    }
}

fn thread_among(threads: &[(u32, ThreadState)], thread: u32) -> Option<&ThreadState>
    requires { AscendsFrom 0 (keys_of (threads_view threads.now)) }
    ensures { option_map thread_view (option_copied result) ≡ lookup (nat_eq thread) (threads_view threads.now) }
{
    match place_among(threads, thread) {
        Some(place) => Some(state_at(threads, thread, place)),
        None => None,
    }
}
