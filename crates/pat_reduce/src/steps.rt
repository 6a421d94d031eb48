// The start of a program, and the steps of a configuration.
ghost use Rattle.std.specs.Prelude.{◌≡◌, ◌<◌, ℕ, Some, None, [], ◌∷◌, ◌++◌, length, slice_get, slice_set, nat_eq, not, map, filter, IfOk, OnOk, OnErr, IfSome, IfNone};
ghost use Rattle.std.specs.Map.{lookup};
ghost use Rattle.pat_semantics_spec.specs.Configs.{start};
ghost use Rattle.pat_semantics_spec.specs.Steps.{redex, ActLocal, ActNew, ActSend, ActSpawn, ActPrint, ActEnd, ActFree, ActReceive, step as after_step};
ghost use Rattle.pat_reduce.specs.threads.Views.{program_view};
ghost use Rattle.pat_reduce.specs.declared.history.Act.TheVariants.{New, Send, Spawn};
ghost use Rattle.pat_reduce.specs.Views.{config_view, freed_view, step_view, threads_view};
ghost use Rattle.pat_reduce.specs.threads.ThreadViews.{control_view, message_view};
ghost use Rattle.pat_reduce.specs.declared.threads.state.ThreadState.{ThreadState as StateOf};
ghost use Rattle.pat_reduce.specs.Acts.{redex_freed};
ghost use Rattle.pat_reduce_values.specs.Results.{Gives, StepGives};
ghost use Rattle.pat_reduce.specs.Places.{IsPlace};
ghost use Rattle.pat_limits.specs.Limits.{most_number};

use crate::threads::{
    Control, Message, ThreadState, after_receive, guard_of, is_over, makes_mailbox, next_line,
    next_message, next_thread, node_with,
};
use crate::{Act, Config, Step};
use pat_reduce_values::{Executable, StepError, Value};
use pat_sequences::{Sequence, Stack};
use std::alloc::{AllocError, Global};

impl Config {
    /// Thread 0 at the body of `main`, and nothing else.
    pub fn start(alloc: Global, code: &Executable) -> Result<Self, AllocError>
        ensures { IfOk result (λ c. config_view c ≡ start (program_view code.now.program)) }
    {
        let mut threads = Sequence::new(alloc);
        let mut next_thread = 0;
        if let Some(main) = code
            .program
            .functions
            .as_slice()
            .get(code.program.main as usize)
        {
            let state = ThreadState {
                control: Control::Node {
                    node: main.body,
                    env: Sequence::new(alloc),
                },
                frames: Stack::new(alloc),
            };
            threads.push((0, state))?;
            next_thread = 1;
        }
        Ok(Config {
            threads,
            messages: Sequence::new(alloc),
            live: Sequence::new(alloc),
            printed: Sequence::new(alloc),
            next_thread,
            next_mailbox: 0,
            next_message: 0,
        })
    }

    /// Takes a step, where there is a further number for what it makes. An `Err` changes nothing.
    pub fn step(&mut self, alloc: Global, code: &Executable, step: &Step) -> Result<(), StepError>
        requires mailboxes { step.now.act ≡ New → self.old.next_mailbox < most_number }
        requires messages { step.now.act ≡ Send → self.old.next_message < most_number }
        requires threads { step.now.act ≡ Spawn → self.old.next_thread < most_number }
        ensures { StepGives config_view (after_step (program_view code.now.program) (config_view self.old) (step_view step.now))
            self.old self.new result }
    {
        match place_of(self.threads.as_slice(), step.thread) {
            Some(place) => self.step_at_place(alloc, code, step, place),
            None => Err(StepError::Disabled),
        }
    }

    /// The same of the thread at a place.
    pub fn step_at_place(
        &mut self,
        alloc: Global,
        code: &Executable,
        step: &Step,
        place: usize,
    ) -> Result<(), StepError>
        requires place { IsPlace self.old.threads step.now.thread place }
        requires mailboxes { step.now.act ≡ New → self.old.next_mailbox < most_number }
        requires messages { step.now.act ≡ Send → self.old.next_message < most_number }
        requires threads { step.now.act ≡ Spawn → self.old.next_thread < most_number }
        ensures { StepGives config_view (after_step (program_view code.now.program) (config_view self.old) (step_view step.now))
            self.old self.new result }
    {
        match step.act {
            Act::Local => self.step_locally(alloc, code, step.thread, place),
            Act::New => self.make_mailbox(code, step.thread, place),
            Act::Send => self.send(alloc, code, step.thread, place),
            Act::Spawn => self.spawn(alloc, code, step.thread, place),
            Act::Print => self.print(alloc, code, step.thread, place),
            Act::End => self.end(code, step.thread, place),
            Act::Free => self.free(alloc, code, step.thread, place),
            Act::Receive(number) => self.receive(alloc, code, step.thread, place, number),
        }
    }

    // A local step of the thread at a place.
    fn step_locally(
        &mut self,
        alloc: Global,
        code: &Executable,
        thread: u32,
        place: usize,
    ) -> Result<(), StepError>
        requires { IsPlace self.old.threads thread place }
        ensures { StepGives config_view (after_step (program_view code.now.program) (config_view self.old)
            (record { thread = thread; act = ActLocal })) self.old self.new result }
    {
        self.threads.items[place].1.step_locally(alloc, code)
    }

    // The thread at a place makes a mailbox.
    fn make_mailbox(
        &mut self,
        code: &Executable,
        thread: u32,
        place: usize,
    ) -> Result<(), StepError>
        requires place { IsPlace self.old.threads thread place }
        requires room { self.old.next_mailbox < most_number }
        ensures { StepGives config_view (after_step (program_view code.now.program) (config_view self.old)
            (record { thread = thread; act = ActNew })) self.old self.new result }
    {
        let state = state_at(self.threads.as_slice(), thread, place);
        if !makes_mailbox(code, &state.control) {
            return Err(StepError::Disabled);
        }
        self.live.push(self.next_mailbox)?;
        let mailbox = Value::Mailbox(self.next_mailbox);
        set_control(&mut self.threads, place, Control::Returned(mailbox));
        self.next_mailbox += 1;
        Ok(())
    }

    // The thread at a place sends.
    fn send(
        &mut self,
        alloc: Global,
        code: &Executable,
        thread: u32,
        place: usize,
    ) -> Result<(), StepError>
        requires place { IsPlace self.old.threads thread place }
        requires room { self.old.next_message < most_number }
        ensures { StepGives config_view (after_step (program_view code.now.program) (config_view self.old)
            (record { thread = thread; act = ActSend })) self.old self.new result }
    {
        let state = state_at(self.threads.as_slice(), thread, place);
        match next_message(alloc, code, &state.control, self.next_message) {
            Ok(message) => {
                self.messages.push(message)?;
                let done = Control::Returned(Value::Unit);
                set_control(&mut self.threads, place, done);
                self.next_message += 1;
                Ok(())
            }
            Err(error) => Err(error),
        }
    }

    // The thread at a place spawns.
    fn spawn(
        &mut self,
        alloc: Global,
        code: &Executable,
        thread: u32,
        place: usize,
    ) -> Result<(), StepError>
        requires place { IsPlace self.old.threads thread place }
        requires room { self.old.next_thread < most_number }
        ensures { StepGives config_view (after_step (program_view code.now.program) (config_view self.old)
            (record { thread = thread; act = ActSpawn })) self.old self.new result }
    {
        let state = state_at(self.threads.as_slice(), thread, place);
        match next_thread(alloc, code, &state.control) {
            Ok(control) => {
                let number = self.next_thread;
                push_thread(alloc, &mut self.threads, number, control)?;
                let done = Control::Returned(Value::Unit);
                set_control(&mut self.threads, place, done);
                self.next_thread += 1;
                Ok(())
            }
            Err(error) => Err(error),
        }
    }

    // The thread at a place prints.
    fn print(
        &mut self,
        alloc: Global,
        code: &Executable,
        thread: u32,
        place: usize,
    ) -> Result<(), StepError>
        requires { IsPlace self.old.threads thread place }
        ensures { StepGives config_view (after_step (program_view code.now.program) (config_view self.old)
            (record { thread = thread; act = ActPrint })) self.old self.new result }
    {
        let state = state_at(self.threads.as_slice(), thread, place);
        match next_line(alloc, code, &state.control) {
            Ok(line) => {
                self.printed.push(line)?;
                let done = Control::Returned(Value::Unit);
                set_control(&mut self.threads, place, done);
                Ok(())
            }
            Err(error) => Err(error),
        }
    }

    // The thread at a place ends.
    fn end(&mut self, code: &Executable, thread: u32, place: usize) -> Result<(), StepError>
        requires { IsPlace self.old.threads thread place }
        ensures { StepGives config_view (after_step (program_view code.now.program) (config_view self.old)
            (record { thread = thread; act = ActEnd })) self.old self.new result }
    {
        if !is_over(code, &self.threads.items[place].1) {
            return Err(StepError::Disabled);
        }
        self.threads.remove(place);
        Ok(())
    }

    // The thread at a place frees the mailbox that it guards.
    fn free(
        &mut self,
        alloc: Global,
        code: &Executable,
        thread: u32,
        place: usize,
    ) -> Result<(), StepError>
        requires { IsPlace self.old.threads thread place }
        ensures { StepGives config_view (after_step (program_view code.now.program) (config_view self.old)
            (record { thread = thread; act = ActFree })) self.old self.new result }
    {
        let state = state_at(self.threads.as_slice(), thread, place);
        match self.after_free(alloc, code, thread, &state.control) {
            Ok((mailbox, control)) => {
                remove_mailbox(&mut self.live, mailbox);
                set_control(&mut self.threads, place, control);
                Ok(())
            }
            Err(error) => Err(error),
        }
    }

    // The mailbox that a thread may free next, and the control that goes on then.
    fn after_free(
        &self,
        alloc: Global,
        code: &Executable,
        thread: u32,
        control: &Control,
    ) -> Result<(u32, Control), StepError>
        ensures { Gives freed_view (redex_freed (program_view code.now.program) (config_view self.now) thread
            (redex (program_view code.now.program) (control_view control.now))) result }
    {
        match guard_of(code, control) {
            Some(guard) => match guard.free {
                Some(body) => {
                    if !self.may_free(thread, guard.mailbox) {
                        return Err(StepError::Disabled);
                    }
                    Ok((guard.mailbox, node_with(alloc, code, body, guard.env)?))
                }
                None => Err(StepError::Disabled),
            },
            None => Err(StepError::Disabled),
        }
    }

    // The thread at a place receives a message.
    fn receive(
        &mut self,
        alloc: Global,
        code: &Executable,
        thread: u32,
        place: usize,
        number: u32,
    ) -> Result<(), StepError>
        requires { IsPlace self.old.threads thread place }
        ensures { StepGives config_view (after_step (program_view code.now.program) (config_view self.old)
            (record { thread = thread; act = ActReceive number })) self.old self.new result }
    {
        let state = state_at(self.threads.as_slice(), thread, place);
        let messages = self.messages.as_slice();
        match after_receive(alloc, code, &state.control, messages, number) {
            Ok(control) => {
                remove_message(&mut self.messages, number);
                set_control(&mut self.threads, place, control);
                Ok(())
            }
            Err(error) => Err(error),
        }
    }
}

// The thread at its place.
pub fn state_at(threads: &[(u32, ThreadState)], thread: u32, place: usize) -> &ThreadState
    requires { IsPlace threads.now thread place }
    ensures { slice_get threads.now place ≡ Some (thread, result.now) }
{
    &threads[place].1
}

// The thread at a place goes on with this control.
fn set_control(threads: &mut Sequence<(u32, ThreadState)>, place: usize, control: Control)
    requires { place < length threads.old }
    ensures { (e : ℕ × StateOf) → slice_get threads.old place ≡ Some e
        → threads.new ≡ slice_set threads.old place (e.0, record { control = control; frames = e.1.frames }) }
{
    threads.items[place].1.control = control;
}

// Puts a thread with no frame behind the others. An error leaves them as they were.
fn push_thread(
    alloc: Global,
    threads: &mut Sequence<(u32, ThreadState)>,
    number: u32,
    control: Control,
) -> Result<(), AllocError>
    ensures ok { OnOk result (threads.new ≡ threads.old ++ (number, record { control = control; frames = [] }) ∷ []) }
    ensures err { OnErr result (threads.new ≡ threads.old) }
{
    let state = ThreadState {
        control,
        frames: Stack::new(alloc),
    };
    threads.push((number, state))
}

fn remove_mailbox(live: &mut Sequence<u32>, mailbox: u32)
    ensures { live.new ≡ filter (λ b. not (nat_eq b mailbox)) live.old }
{
    live.items.retain(|own| *own != mailbox);
}

fn remove_message(messages: &mut Sequence<Message>, number: u32)
    ensures { map message_view messages.new ≡ filter (λ m. not (nat_eq m.number number)) (map message_view messages.old) }
{
    messages.items.retain(|message| message.number != number);
}

/// The place of a thread.
pub fn place_of(threads: &[(u32, ThreadState)], thread: u32) -> Option<usize>
    ensures found { IfSome result (IsPlace threads.now thread) }
    ensures none { IfNone result (lookup (nat_eq thread) (threads_view threads.now) ≡ None) }
{
    for (i, own) in threads.iter().enumerate() {
        if thread == own.0 {
            return Some(i);
        }
    }
    None
}
