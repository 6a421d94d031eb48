// The mailboxes of a machine, to be read.
ghost use Rattle.std.specs.Prelude.{◌≡◌};
ghost use Rattle.pat_machine_steps.specs.wakeups.Counting.{count_at};
ghost use Rattle.pat_machine.specs.Parted.{shown, IsKept};
ghost use Rattle.pat_machine.specs.Reading.{ShowsMailboxes};

use crate::parts::Parts;
use pat_machine_indexes::{Mailboxes, RefCounts};

/// The mailboxes of a machine: what is pending in each live one, and how often each is named.
#[derive(Clone, Copy, Drop)]
pub struct MailboxesOf<'a> {
    pub messages: &'a Mailboxes,
    pub names: &'a RefCounts,
}

impl MailboxesOf<'_> {
    /// How often threads and messages name the mailbox. It takes no memory.
    pub fn named(&self, mailbox: u32) -> u32
        ensures { result ≡ count_at self.now.names.now.times.items mailbox }
    {
        match self.names.times.get(mailbox as usize) {
            Some(times) => *times,
            None => 0,
        }
    }
}

impl Parts {
    /// The mailboxes, to be read.
    pub fn mailboxes(&self) -> MailboxesOf<'_>
        requires { IsKept self.now }
        ensures { ShowsMailboxes (shown self.now) result }
    {
        MailboxesOf {
            messages: self.state.mailboxes(),
            names: &self.names,
        }
    }
}
