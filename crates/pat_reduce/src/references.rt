// Which mailboxes threads and messages refer to, and which may be freed.
ghost use Rattle.std.specs.Prelude.{◌≡◌, map};
ghost use Rattle.std.specs.List.{list_any};
ghost use Rattle.pat_semantics_spec.specs.Configs.{message_refers, other_refers, has_pending};
ghost use Rattle.pat_reduce.specs.Views.{config_view, threads_view};
ghost use Rattle.pat_reduce.specs.threads.ThreadViews.{message_view};
ghost use Rattle.pat_reduce.specs.Acts.{may_free};

use crate::Config;
use crate::threads::{Message, ThreadState, message_refers, thread_refers};

impl Config {
    /// Whether the mailbox may be freed by the thread: it is live, nothing is pending in it, and nothing else reaches it.
    pub fn may_free(&self, thread: u32, mailbox: u32) -> bool
        ensures { result ≡ may_free (config_view self.now) thread mailbox }
    {
        self.live.as_slice().contains(&mailbox)
            && !has_pending(self.messages.as_slice(), mailbox)
            && !other_refers(self.threads.as_slice(), thread, mailbox)
            && !messages_refer(self.messages.as_slice(), mailbox)
    }
}

fn has_pending(messages: &[Message], mailbox: u32) -> bool
    ensures { result ≡ has_pending mailbox (map message_view messages.now) }
{
    for message in messages {
        if message.mailbox == mailbox {
            return true;
        }
    }
    false
}

// Whether another thread refers to the mailbox.
fn other_refers(threads: &[(u32, ThreadState)], thread: u32, mailbox: u32) -> bool
    ensures { result ≡ other_refers mailbox thread (threads_view threads.now) }
{
    for entry in threads {
        if entry.0 != thread && thread_refers(&entry.1, mailbox) {
            return true;
        }
    }
    false
}

fn messages_refer(messages: &[Message], mailbox: u32) -> bool
    ensures { result ≡ list_any (message_refers mailbox) (map message_view messages.now) }
{
    for message in messages {
        if message_refers(message, mailbox) {
            return true;
        }
    }
    false
}
