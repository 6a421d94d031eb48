// Configurations: threads, pending messages, live mailboxes, and what was printed.
use crate::threads::{Message, ThreadState};
use pat_sequences::{Sequence, Text};

/// A configuration. Threads, messages and live mailboxes stand in ascending order of number.
pub struct Config {
    pub threads: Sequence<(u32, ThreadState)>,
    pub messages: Sequence<Message>,
    pub live: Sequence<u32>,
    pub printed: Sequence<Text>,
    pub next_thread: u32,
    pub next_mailbox: u32,
    pub next_message: u32,
}

impl Drop for Config {
    fn drop(self) {
        let Config {
            threads: _,
            messages: _,
            live: _,
            printed: _,
            next_thread: _,
            next_mailbox: _,
            next_message: _,
        } = self;
    }
}
