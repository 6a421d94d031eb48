// The steps of a thread.
ghost use Rattle.std.specs.Prelude.{◌≡◌, ℕ, ◌<◌, true, length, Some, None, option_map, IfOk};
ghost use Rattle.pat_semantics_spec.specs.Orders.{IsOrdered};
ghost use Rattle.pat_semantics_spec.specs.Steps.{ActNew, ActSend, ActFree, ActReceive, message_at, step as after_step};
ghost use Rattle.pat_semantics_laws.specs.Laws.{IsEnabled};
ghost use Rattle.pat_core.specs.Views.{program_view};
ghost use Rattle.pat_reduce_values.specs.Results.{StepGives};
ghost use Rattle.pat_reduce.specs.threads.ThreadViews.{message_view};
ghost use Rattle.pat_reduce.specs.Views.{act_view, step_view};
ghost use Rattle.pat_machine_spec.specs.Machines.{HasRoom};
ghost use Rattle.pat_machine_threads.specs.store.Alone.{is_beside};
ghost use Rattle.pat_machine_states.specs.Stepping.{SendsToLive};
ghost use Rattle.pat_machine_states.specs.Taking.{outcome};

use crate::IndexedConfig;
use pat_machine_indexes::delivery;
use pat_reduce::{Act, Message, Step, StepError};
use pat_reduce_values::Executable;
use std::alloc::Global;

impl IndexedConfig {
    /// Takes a step, if it is enabled, and gives the message that it received. A send goes to a live mailbox, and there is a place for
    /// its message; a free is enabled. An error changes nothing.
    pub fn step(
        &mut self,
        alloc: Global,
        code: &Executable,
        step: &Step,
    ) -> Result<Option<Message>, StepError>
        requires room { HasRoom self.old.config }
        requires ordered { IsOrdered self.old.config }
        requires live { act_view step.now.act ≡ ActSend → SendsToLive (program_view code.now.program) self.old.config step.now.thread }
        requires place { act_view step.now.act ≡ ActSend → length self.old.config.messages < self.old.places }
        requires free { act_view step.now.act ≡ ActFree
            → IsEnabled (program_view code.now.program) self.old.config (record { thread = step.now.thread; act = ActFree }) }
        ensures step { StepGives (λ c. c) (after_step (program_view code.now.program) self.old.config
            (step_view step.now)) self.old.config self.new.config (outcome result) }
        ensures places { self.new.places ≡ self.old.places }
        ensures message { IfOk result (λ m. (k : ℕ) → act_view step.now.act ≡ ActReceive k
            → option_map message_view m ≡ message_at self.old.config k) }
    {
        match step.act {
            Act::New => no_message(self.make_mailbox(code, step.thread)),
            Act::Send => no_message(self.send(alloc, code, step.thread)),
            Act::Free => no_message(self.free(alloc, code, step.thread)),
            Act::Receive(number) => match self.receive(alloc, code, step.thread, number) {
                Ok(message) => Ok(Some(message)),
                Err(error) => Err(error),
            },
            Act::Local | Act::Spawn | Act::Print | Act::End => {
                no_message(self.step_beside(alloc, code, step))
            }
        }
    }

    // A step that looks at no message and makes none.
    fn step_beside(
        &mut self,
        alloc: Global,
        code: &Executable,
        step: &Step,
    ) -> Result<(), StepError>
        requires room { HasRoom self.old.config }
        requires beside { is_beside (act_view step.now.act) ≡ true }
        ensures step { StepGives (λ c. c) (after_step (program_view code.now.program) self.old.config
            (step_view step.now)) self.old.config self.new.config result }
        ensures places { self.new.places ≡ self.old.places }
    {
        self.placed.step(alloc, code, step)
    }

    // The thread makes a mailbox.
    fn make_mailbox(&mut self, code: &Executable, thread: u32) -> Result<(), StepError>
        requires room { HasRoom self.old.config }
        ensures step { StepGives (λ c. c) (after_step (program_view code.now.program) self.old.config
            (record { thread = thread; act = ActNew })) self.old.config self.new.config result }
        ensures places { self.new.places ≡ self.old.places }
    {
        self.mailboxes.reserve(1)?;
        let mailbox = self.placed.mailboxes_made();
        match self.placed.make_mailbox(code, thread) {
            Ok(()) => {
                self.mailboxes.create(mailbox);
                Ok(())
            }
            Err(error) => Err(error),
        }
    }

    // The thread sends. There is a place for the message.
    fn send(&mut self, alloc: Global, code: &Executable, thread: u32) -> Result<(), StepError>
        requires room { HasRoom self.old.config }
        requires ordered { IsOrdered self.old.config }
        requires live { SendsToLive (program_view code.now.program) self.old.config thread }
        requires place { length self.old.config.messages < self.old.places }
        ensures step { StepGives (λ c. c) (after_step (program_view code.now.program) self.old.config
            (record { thread = thread; act = ActSend })) self.old.config self.new.config result }
        ensures places { self.new.places ≡ self.old.places }
    {
        match self.placed.send(alloc, code, thread) {
            Ok(message) => {
                self.latest = Some(message.mailbox);
                self.mailboxes.send(message);
                Ok(())
            }
            Err(error) => Err(error),
        }
    }

    // The thread frees the mailbox that it guards.
    fn free(&mut self, alloc: Global, code: &Executable, thread: u32) -> Result<(), StepError>
        requires { IsEnabled (program_view code.now.program) self.old.config (record { thread = thread; act = ActFree }) }
        ensures step { StepGives (λ c. c) (after_step (program_view code.now.program) self.old.config
            (record { thread = thread; act = ActFree })) self.old.config self.new.config result }
        ensures places { self.new.places ≡ self.old.places }
    {
        match self.placed.free(alloc, code, thread) {
            Ok(mailbox) => {
                self.mailboxes.free(mailbox);
                Ok(())
            }
            Err(error) => Err(error),
        }
    }

    // The thread receives a message, which is handed out.
    fn receive(
        &mut self,
        alloc: Global,
        code: &Executable,
        thread: u32,
        number: u32,
    ) -> Result<Message, StepError>
        ensures step { StepGives (λ c. c) (after_step (program_view code.now.program) self.old.config
            (record { thread = thread; act = ActReceive number })) self.old.config self.new.config (outcome result) }
        ensures places { self.new.places ≡ self.old.places }
        ensures message { IfOk result (λ m. message_at self.old.config number ≡ Some (message_view m)) }
    {
        match self.placed.thread(thread) {
            Some(state) => match delivery(alloc, code, &self.mailboxes, &state.control, number) {
                Ok((mailbox, tag, control)) => {
                    let message = self.mailboxes.take(mailbox, tag, number);
                    self.placed.go_on(thread, control);
                    Ok(message)
                }
                Err(error) => Err(error),
            },
            None => Err(StepError::Disabled),
        }
    }
}

// What a step gives that received nothing.
fn no_message(taken: Result<(), StepError>) -> Result<Option<Message>, StepError>
    ensures same { outcome result ≡ taken }
{
    match taken {
        Ok(()) => Ok(None),
        Err(error) => Err(error),
    }
}
