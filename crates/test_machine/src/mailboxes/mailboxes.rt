// A mailbox with a message.
ghost use Rattle.std.specs.Prelude.{◌≡◌, nat_eq};

use crate::checking::check;
use pat_mailboxes::{Mailboxes, Test};
use pat_reduce::Message;
use pat_sequences::Sequence;
use std::alloc::Global;
use std::process::Abort;

// Messages with a tag.
struct Tagged {
    tag: u8,
}

impl Test for Tagged {
    ghost passes = { λ t m. nat_eq t.tag m.tag };

    fn passes(&self, message: &Message) -> bool {
        self.tag == message.tag
    }

    fn may_pass(&self, lane: u32) -> bool {
        let _ = lane;
        true
    }
}

pub fn a_message_is_found_and_taken(rt: &impl Abort, alloc: Global) {
    let mut mailboxes = Mailboxes::fixed(alloc, 1).expect(rt, "memory");
    mailboxes.reserve(1).expect(rt, "memory");
    mailboxes.create(0);
    mailboxes.send(Message {
        number: 0,
        mailbox: 0,
        tag: 0,
        values: Sequence::new(alloc),
    });
    check(rt, mailboxes.find(0, &Tagged { tag: 0 }).is_some() == true);
    check(rt, mailboxes.find(0, &Tagged { tag: 1 }).is_some() == false);
    check(rt, mailboxes.pending() == 1);
    check(rt, mailboxes.take(0, 0, 0).tag == 0);
    check(rt, mailboxes.pending() == 0);
    mailboxes.free(0);
    check(rt, mailboxes.is_live(0) == false);
}
