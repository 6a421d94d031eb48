// Tests of messages.
ghost use Rattle.std.specs.Prelude.{◌≡◌, Bool, false, nat_eq};
ghost use Rattle.pat_reduce.specs.declared.threads.state.Message.{Message as Tested};
ghost use Rattle.pat_mailboxes.specs.queues.Lanes.{lane_of};

use pat_reduce::Message;

/// A test of messages.
pub trait Test {
    /// Whether a message passes.
    ghost passes: { Self → Tested → Bool };

    /// Whether a message passes. It takes no memory.
    fn passes(&self, message: &Message) -> bool
        ensures { result ≡ passes self.now message.now };

    /// Whether a message of a lane may pass. It takes no memory.
    fn may_pass(&self, lane: u32) -> bool
        ensures { result ≡ false → (m : Tested) → lane_of m.tag ≡ lane → passes self.now m ≡ false };
}

/// The number of a message that is looked for.
#[derive(Clone, Copy)]
pub struct Numbered {
    pub number: u32,
}

impl Test for Numbered {
    ghost passes = { λ t m. nat_eq t.number m.number };

    fn passes(&self, message: &Message) -> bool {
        self.number == message.number
    }

    fn may_pass(&self, lane: u32) -> bool {
        // A number says nothing of a tag.
        let _ = lane;
        true
    }
}
