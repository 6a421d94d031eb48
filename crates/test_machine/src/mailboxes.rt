// Mailboxes called in a row, with answers by hand.

mod mailboxes;

pub use mailboxes::a_message_is_found_and_taken;
