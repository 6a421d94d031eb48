// Steps of one thread, by itself.
ghost use Rattle.std.specs.Prelude.{◌≡◌, [], Some};
ghost use Rattle.pat_semantics_spec.specs.Configs.{Thread as ThreadOf, thread_at};
ghost use Rattle.pat_core.specs.Views.{program_view};
ghost use Rattle.pat_reduce.specs.Views.{step_view};
ghost use Rattle.pat_machine_spec.specs.Machines.{HasRoom};
ghost use Rattle.pat_machine_threads.specs.store.Steps.{StepsApart};

use crate::store::ThreadStore;
use crate::store::moves::{put_back, set_apart};
use pat_reduce::{Act, Step, StepError};
use pat_reduce_values::Executable;
use std::alloc::Global;

impl ThreadStore {
    /// Takes a step of a thread by itself, while no other one is there and no message: what is left of it goes back to its place.
    /// An error changes nothing.
    pub fn step(&mut self, alloc: Global, code: &Executable, step: &Step) -> Result<(), StepError>
        requires room { HasRoom self.old }
        requires none { self.old.messages ≡ [] }
        ensures { StepsApart (program_view code.now.program) self.old (step_view step.now) self.new result }
    {
        match step.act {
            Act::Print => self.print(alloc, code, step.thread),
            Act::Spawn => self.spawn(alloc, code, step.thread),
            _ => self.step_apart(alloc, code, step),
        }
    }

    // The same of any step, by moving the thread out of the table.
    fn step_apart(&mut self, alloc: Global, code: &Executable, step: &Step) -> Result<(), StepError>
        requires room { HasRoom self.old }
        requires none { self.old.messages ≡ [] }
        ensures { StepsApart (program_view code.now.program) self.old (step_view step.now) self.new result }
    {
        match self.table.get(step.thread) {
            Some(_) => self.step_there(alloc, code, step),
            None => Err(StepError::Disabled),
        }
    }

    // The same of a thread that is there.
    fn step_there(&mut self, alloc: Global, code: &Executable, step: &Step) -> Result<(), StepError>
        requires there { (s : ThreadOf) × (thread_at self.old step.now.thread ≡ Some s) }
        requires room { HasRoom self.old }
        requires none { self.old.messages ≡ [] }
        ensures { StepsApart (program_view code.now.program) self.old (step_view step.now) self.new result }
    {
        self.table.reserve()?;
        set_apart(
            alloc,
            &mut self.config.threads,
            &mut self.table,
            step.thread,
        )?;
        let taken = self.config.step_at_place(alloc, code, step, 0);
        put_back(&mut self.config.threads, &mut self.table, step.thread);
        taken
    }
}
