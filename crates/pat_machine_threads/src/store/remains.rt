// What is left of a configuration, by numbers alone.
ghost use Rattle.std.specs.Prelude.{◌≡◌, ◌<◌, ◌++◌, None, get_or, length, IfOk, OnOk};
ghost use Rattle.std.specs.Map.{keys_of};
ghost use Rattle.pat_reduce.specs.Views.{config_view, threads_view};
ghost use Rattle.pat_machine_threads.specs.table.Entries.{entries_from};
ghost use Rattle.pat_machine_threads.specs.store.ThreadStore.{numbered};
ghost use Rattle.pat_machine_threads.specs.store.Remains.{remains_of};
ghost use Rattle.pat_limits.specs.Limits.{number_count};

use crate::store::ThreadStore;
use pat_reduce::{Config, ThreadState};
use pat_sequences::Sequence;
use std::alloc::{AllocError, Global};

/// The threads that are there, by number, and how many mailboxes are live.
#[derive(Drop)]
pub struct Remains {
    pub threads: Sequence<u32>,
    pub live: usize,
}

impl Remains {
    /// What is left of a configuration.
    pub fn of(alloc: Global, config: &Config) -> Result<Remains, AllocError>
        ensures { IfOk result (λ r. r ≡ remains_of (config_view config.now)) }
    {
        let threads = list_threads(alloc, config.threads.as_slice())?;
        Ok(Remains {
            threads,
            live: config.live.len(),
        })
    }
}

impl ThreadStore {
    /// The threads that are there, with so many live mailboxes.
    pub fn remains(&self, alloc: Global, live: usize) -> Result<Remains, AllocError>
        ensures { IfOk result (λ r. r ≡ record { threads = keys_of self.now.threads; live = live }) }
    {
        let threads = list_slots(alloc, self.table.slots())?;
        Ok(Remains { threads, live })
    }
}

fn list_threads(alloc: Global, threads: &[(u32, ThreadState)]) -> Result<Sequence<u32>, AllocError>
    ensures { IfOk result (λ own. own ≡ keys_of (threads_view threads.now)) }
{
    let mut own = Sequence::new(alloc);
    for entry in threads {
        own.push(entry.0)?;
    }
    Ok(own)
}

// The numbers of the slots in which a thread stands.
fn list_slots(alloc: Global, slots: &[Option<ThreadState>]) -> Result<Sequence<u32>, AllocError>
    requires { length slots.now < number_count }
    ensures { IfOk result (λ own. own ≡ keys_of (threads_view (entries_from 0 slots.now))) }
{
    let mut own = Sequence::new(alloc);
    for slot in 0..slots.len() {
        list_slot(slots, slot as u32, &mut own)?;
    }
    Ok(own)
}

// Appends the number of a slot, if a thread stands there.
fn list_slot(
    slots: &[Option<ThreadState>],
    number: u32,
    own: &mut Sequence<u32>,
) -> Result<(), AllocError>
    ensures { OnOk result (own.new ≡ own.old ++ keys_of (threads_view (numbered number (get_or slots.now number None)))) }
{
    match slots.get(number as usize) {
        Some(Some(_)) => own.push(number),
        Some(None) => Ok(()),
        None => Ok(()),
    }
}
