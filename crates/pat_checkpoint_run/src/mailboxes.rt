// The interfaces of mailboxes: of those that a checkpoint had, and of those that were made since.
ghost use Rattle.std.specs.Prelude.{◌≡◌, map, slice_get, unwrap_or, IfOk};
ghost use Rattle.pat_semantics_spec.specs.Orders.{AscendsFrom};
ghost use Rattle.pat_checkpoint_spec.specs.Checkpoints.{interface_at};
ghost use Rattle.pat_checkpoint_spec.specs.Resumed.{interface_made};

use pat_reduce::Config;
use pat_sequences::Sequence;
use std::alloc::{AllocError, Global};

/// The mailboxes that a checkpoint has, each with its interface, and the number of the next one.
#[derive(Drop)]
pub struct FirstMailboxes {
    pub live: Sequence<u32>,
    pub interfaces: Sequence<u32>,
    pub next: u32,
}

impl FirstMailboxes {
    /// The live mailboxes of a configuration, with these interfaces.
    pub fn of(alloc: Global, config: &Config, interfaces: Sequence<u32>) -> Result<Self, AllocError>
        ensures live { IfOk result (λ first. first.live ≡ config.now.live) }
        ensures interfaces { IfOk result (λ first. first.interfaces ≡ interfaces) }
        ensures next { IfOk result (λ first. first.next ≡ config.now.next_mailbox) }
    {
        Ok(FirstMailboxes {
            live: copied(alloc, config.live.as_slice())?,
            interfaces,
            next: config.next_mailbox,
        })
    }

    /// The interface of each of these mailboxes, where the ones that were made since have those.
    pub fn interfaces_of(
        &self,
        alloc: Global,
        made: &[u32],
        mailboxes: &[u32],
    ) -> Result<Sequence<u32>, AllocError>
        requires { AscendsFrom 0 self.now.live }
        ensures { IfOk result (λ is. is ≡ map (interface_made
            (interface_at self.now.live self.now.interfaces) self.now.next made.now) mailboxes.now) }
    {
        let mut interfaces = Sequence::new(alloc);
        for mailbox in mailboxes {
            interfaces.push(self.interface_of(made, *mailbox))?;
        }
        Ok(interfaces)
    }

    // The interface of a mailbox.
    fn interface_of(&self, made: &[u32], mailbox: u32) -> u32
        requires { AscendsFrom 0 self.now.live }
        ensures { result ≡ interface_made (interface_at self.now.live self.now.interfaces) self.now.next made.now mailbox }
    {
        if mailbox < self.next {
            return self.first_interface(mailbox);
        }
        match made.get((mailbox - self.next) as usize) {
            Some(interface) => *interface,
            None => self.first_interface(mailbox),
        }
    }

    // The interface that a mailbox had.
    fn first_interface(&self, mailbox: u32) -> u32
        requires { AscendsFrom 0 self.now.live }
        ensures { result ≡ interface_at self.now.live self.now.interfaces mailbox }
    {
        match self.live.as_slice().binary_search(&mailbox) {
            Ok(place) => number_at(self.interfaces.as_slice(), place),
            Err(_) => 0,
        }
    }
}

// The number at a place, or 0 where there is none.
fn number_at(numbers: &[u32], place: usize) -> u32
    ensures { result ≡ unwrap_or (slice_get numbers.now place) 0 }
{
    match numbers.get(place) {
        Some(number) => *number,
        None => 0,
    }
}

fn copied(alloc: Global, numbers: &[u32]) -> Result<Sequence<u32>, AllocError>
    ensures { IfOk result (λ copy. copy ≡ numbers.now) }
{
    let mut copy = Sequence::new(alloc);
    for number in numbers {
        copy.push(*number)?;
    }
    Ok(copy)
}
