// Threads: their local steps, and what they print, send, spawn, receive and refer to.

mod guards;
mod nodes;
mod references;
mod sending;
mod state;
mod threads;

pub use guards::{GuardRef, after_receive, first_message, go_on_with, guard_of, takes};
pub use nodes::{core_of, function_of, node_with};
pub use pat_core::Core;
pub use references::{message_refers, thread_refers};
pub use sending::{makes_mailbox, next_message, next_thread};
pub use state::{Control, Frame, Message, ThreadState};
pub use threads::{enter, is_over, next_line};
