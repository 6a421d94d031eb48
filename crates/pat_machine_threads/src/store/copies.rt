// A copy of the configuration.
ghost use Rattle.std.specs.Prelude.{◌≡◌, ◌<◌, ◌++◌, None, get_or, length, map, IfOk, OnOk};
ghost use Rattle.pat_reduce.specs.threads.ThreadViews.{message_view};
ghost use Rattle.pat_reduce.specs.Views.{config_view, threads_view};
ghost use Rattle.pat_machine_threads.specs.table.Entries.{entries_from};
ghost use Rattle.pat_machine_threads.specs.store.ThreadStore.{numbered};
ghost use Rattle.pat_limits.specs.Limits.{number_count};

use crate::copies::copy_state;
use crate::store::ThreadStore;
use pat_reduce::{Config, Message, ThreadState};
use pat_sequences::{Sequence, Text};
use std::alloc::{AllocError, Global};

impl ThreadStore {
    /// A copy of the configuration, with these messages and live mailboxes.
    pub fn copy(
        &self,
        alloc: Global,
        messages: Sequence<Message>,
        live: Sequence<u32>,
    ) -> Result<Config, AllocError>
        ensures { IfOk result (λ c. config_view c ≡ record self.now { messages = map message_view messages; live = live }) }
    {
        let threads = copy_threads(alloc, self.table.slots())?;
        let printed = copy_lines(alloc, self.config.printed.as_slice())?;
        Ok(Config {
            threads,
            messages,
            live,
            printed,
            next_thread: self.config.next_thread,
            next_mailbox: self.config.next_mailbox,
            next_message: self.config.next_message,
        })
    }
}

// Copies of the threads that are there, with their numbers.
fn copy_threads(
    alloc: Global,
    slots: &[Option<ThreadState>],
) -> Result<Sequence<(u32, ThreadState)>, AllocError>
    requires { length slots.now < number_count }
    ensures { IfOk result (λ own. threads_view own ≡ threads_view (entries_from 0 slots.now)) }
{
    let mut own = Sequence::new(alloc);
    for slot in 0..slots.len() {
        copy_slot(alloc, slots, slot as u32, &mut own)?;
    }
    Ok(own)
}

// Appends a copy of what stands in a slot, with the slot's number.
fn copy_slot(
    alloc: Global,
    slots: &[Option<ThreadState>],
    number: u32,
    own: &mut Sequence<(u32, ThreadState)>,
) -> Result<(), AllocError>
    ensures { OnOk result (threads_view own.new ≡ threads_view own.old ++ threads_view (numbered number (get_or slots.now number None))) }
{
    match slots.get(number as usize) {
        Some(Some(state)) => own.push((number, copy_state(alloc, state)?)),
        Some(None) => Ok(()),
        None => Ok(()),
    }
}

fn copy_lines(alloc: Global, lines: &[Text]) -> Result<Sequence<Text>, AllocError>
    ensures { IfOk result (λ own. own ≡ lines.now) }
{
    let mut own = Sequence::new(alloc);
    for line in lines {
        own.push(line.copy(alloc)?)?;
    }
    Ok(own)
}
