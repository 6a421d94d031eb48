// Steps of a thread that stays in its place.
ghost use Rattle.std.specs.Prelude.{◌≡◌, [], Some};
ghost use Rattle.pat_semantics_spec.specs.Steps.{ActPrint, ActSpawn, redex};
ghost use Rattle.pat_core.specs.Views.{program_view};
ghost use Rattle.pat_machine_spec.specs.Machines.{HasRoom};
ghost use Rattle.pat_reduce_values.specs.Results.{Gives};
ghost use Rattle.pat_reduce.specs.threads.ThreadViews.{control_view};
ghost use Rattle.pat_reduce.specs.Views.{freed_view};
ghost use Rattle.pat_machine_threads.specs.store.InPlace.{redex_frees, FreesOut, MakesOut, SendsOut};
ghost use Rattle.pat_machine_threads.specs.store.Steps.{StepsApart};

use crate::store::ThreadStore;
use pat_reduce::{
    Control, Message, StepError, ThreadState, guard_of, makes_mailbox, next_line, next_message,
    next_thread, node_with,
};
use pat_reduce_values::{Executable, Value};
use pat_sequences::Stack;
use std::alloc::Global;

impl ThreadStore {
    /// The thread makes a mailbox, which has the next number and isn't listed as live. An error changes nothing.
    pub fn make_mailbox(&mut self, code: &Executable, thread: u32) -> Result<(), StepError>
        requires { HasRoom self.old }
        ensures { MakesOut (program_view code.now.program) self.old thread self.new result }
    {
        match self.table.get(thread) {
            Some(state) => {
                if !makes_mailbox(code, &state.control) {
                    return Err(StepError::Disabled);
                }
                let mailbox = Value::Mailbox(self.config.next_mailbox);
                self.table.set_control(thread, Control::Returned(mailbox));
                self.config.next_mailbox += 1;
                Ok(())
            }
            None => Err(StepError::Disabled),
        }
    }

    /// The thread goes on as if the mailbox that it guards were freed, and hands out which one that is. An error changes nothing.
    pub fn free(&mut self, alloc: Global, code: &Executable, thread: u32) -> Result<u32, StepError>
        ensures { FreesOut (program_view code.now.program) self.old thread self.new result }
    {
        match self.table.get(thread) {
            Some(state) => match after_free(alloc, code, &state.control) {
                Ok((mailbox, control)) => {
                    self.table.set_control(thread, control);
                    Ok(mailbox)
                }
                Err(error) => Err(error),
            },
            None => Err(StepError::Disabled),
        }
    }

    /// The thread sends: the message is handed out, and pending nowhere. An error changes nothing.
    pub fn send(
        &mut self,
        alloc: Global,
        code: &Executable,
        thread: u32,
    ) -> Result<Message, StepError>
        requires { HasRoom self.old }
        ensures { SendsOut (program_view code.now.program) self.old thread self.new result }
    {
        match self.table.get(thread) {
            Some(state) => {
                match next_message(alloc, code, &state.control, self.config.next_message) {
                    Ok(message) => {
                        let done = Control::Returned(Value::Unit);
                        self.table.set_control(thread, done);
                        self.config.next_message += 1;
                        Ok(message)
                    }
                    Err(error) => Err(error),
                }
            }
            None => Err(StepError::Disabled),
        }
    }

    // The thread prints.
    pub(crate) fn print(
        &mut self,
        alloc: Global,
        code: &Executable,
        thread: u32,
    ) -> Result<(), StepError>
        requires { self.old.messages ≡ [] }
        ensures { StepsApart (program_view code.now.program) self.old (record { thread = thread; act = ActPrint }) self.new result }
    {
        match self.table.get(thread) {
            Some(state) => match next_line(alloc, code, &state.control) {
                Ok(line) => {
                    self.config.printed.push(line)?;
                    let done = Control::Returned(Value::Unit);
                    self.table.set_control(thread, done);
                    Ok(())
                }
                Err(error) => Err(error),
            },
            None => Err(StepError::Disabled),
        }
    }

    // The thread spawns another one, which comes behind the others.
    pub(crate) fn spawn(
        &mut self,
        alloc: Global,
        code: &Executable,
        thread: u32,
    ) -> Result<(), StepError>
        requires room { HasRoom self.old }
        requires none { self.old.messages ≡ [] }
        ensures { StepsApart (program_view code.now.program) self.old (record { thread = thread; act = ActSpawn }) self.new result }
    {
        match self.table.get(thread) {
            Some(state) => match next_thread(alloc, code, &state.control) {
                Ok(control) => {
                    self.table.reserve()?;
                    let done = Control::Returned(Value::Unit);
                    self.table.set_control(thread, done);
                    let frames = Stack::new(alloc);
                    self.table.add(ThreadState { control, frames });
                    self.config.next_thread += 1;
                    Ok(())
                }
                Err(error) => Err(error),
            },
            None => Err(StepError::Disabled),
        }
    }
}

// The mailbox that a thread frees next, and the control that goes on then.
fn after_free(
    alloc: Global,
    code: &Executable,
    control: &Control,
) -> Result<(u32, Control), StepError>
    ensures { Gives freed_view (redex_frees (program_view code.now.program) (redex (program_view code.now.program) (control_view control.now))) result }
{
    match guard_of(code, control) {
        Some(guard) => match guard.free {
            Some(body) => Ok((guard.mailbox, node_with(alloc, code, body, guard.env)?)),
            None => Err(StepError::Disabled),
        },
        None => Err(StepError::Disabled),
    }
}
