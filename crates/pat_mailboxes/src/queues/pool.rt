// A pool of queues.
ghost use Rattle.std.specs.Prelude.{◌≡◌, ◌≢◌, ℕ, ◌+◌, ◌-◌, ◌<◌, ◌≤◌, max, List, [], ◌∷◌, ◌++◌, length, map, find, option_copied, Some, None, IfOk, OnOk, OnErr, IfSome, IfNone, slice_get, remove};
ghost use Rattle.std.specs.List.{AllByRecursion};
ghost use Rattle.std.specs.List.Sorted.{IsPermutation};
ghost use Rattle.pat_mailboxes.specs.queues.Lanes.{IsMessageAt, Rise, last_of};
ghost use Rattle.pat_mailboxes.specs.queues.Queues.{Becomes, IsLive, queue_at, values_at};

use crate::queues::lanes::{LANES, count_in, first_in, last_in, list_in, push_in, take_in};
use crate::queues::region::Region;
use crate::queues::test::Test;
use pat_reduce::Message;
use std::alloc::{AllocError, Global};
use std::marker::Model;

/// The most queues: the chains of their lanes are numbered with 32 bits.
const MOST_QUEUES: usize = 536_870_911;

/// Whether a queue is live. The closed ones are linked, so that their numbers are taken again.
#[derive(Clone, Copy)]
pub enum Mark {
    Live,
    Closed(Option<u32>),
}

/// Queues of messages that stand in one region of nodes, each queue in lanes by tag. Contracts see the queues by number, each in order of
/// its messages' numbers, and how many nodes are spare.
#[derive(Drop)]
pub struct Pool {
    region: Region<Message>,
    /// Of each queue.
    marks: Vec<Mark>,
    /// A closed queue.
    closed: Option<u32>,
}

impl Model for Pool {
    ghost use Rattle.std.specs.Prelude.{ℕ, List, Option, ◌≡◌};
    ghost use Rattle.pat_reduce.specs.declared.threads.state.Message.{Message as Held};

    ghost Value = { List (Option (List Held)) × ℕ };

    ghost use Rattle.pat_mailboxes.specs.queues.Pooled.{contents, spare_in, queues_of, AreMarked, IsRegion};

    ghost view = { λ p. (queues_of p.marks.items (contents p.region), spare_in p.region) };

    ghost invariant = { λ p. IsRegion p.region × AreMarked p.marks.items (contents p.region) };
}

impl Pool {
    /// A pool without queues and nodes. It takes no memory.
    pub fn new(alloc: Global) -> Pool
        ensures { result ≡ ([], 0) }
    {
        Pool {
            region: Region::new(alloc),
            marks: Vec::new(alloc),
            closed: None,
        }
    }

    /// A pool without queues, with `n` spare nodes. It takes memory for them, and touches none of it.
    pub fn fixed(alloc: Global, n: u32) -> Result<Pool, AllocError>
        ensures { IfOk result (λ p. p ≡ ([], n)) }
    {
        let mut pool = Pool::new(alloc);
        pool.reserve(n)?;
        Ok(pool)
    }

    /// Makes at least `n` nodes spare. It touches no node. An error changes nothing.
    pub fn reserve(&mut self, n: u32) -> Result<(), AllocError>
        ensures queues { self.new.0 ≡ self.old.0 }
        ensures ok { OnOk result (self.new.1 ≡ max self.old.1 n) }
        ensures err { OnErr result (self.new.1 ≡ self.old.1) }
    {
        let more = n.saturating_sub(self.region.spare());
        self.region.reserve(more)
    }

    /// A further queue, which is empty, under a number that isn't live. An error changes nothing.
    pub fn open(&mut self) -> Result<u32, AllocError>
        ensures spare { self.new.1 ≡ self.old.1 }
        ensures fresh { IfOk result (λ q. queue_at self.old.0 q ≡ None) }
        ensures ok { IfOk result (λ q. Becomes self.old.0 self.new.0 q (Some [])) }
        ensures err { OnErr result (self.new.0 ≡ self.old.0) }
    {
        match self.reopen() {
            Some(queue) => Ok(queue),
            None => self.add_queue(),
        }
    }

    // Opens a closed queue, if there is one.
    fn reopen(&mut self) -> Option<u32>
        ensures spare { self.new.1 ≡ self.old.1 }
        ensures fresh { IfSome result (λ q. queue_at self.old.0 q ≡ None) }
        ensures some { IfSome result (λ q. Becomes self.old.0 self.new.0 q (Some [])) }
        ensures none { IfNone result (self.new.0 ≡ self.old.0) }
    {
        let queue = self.closed?;
        match self.marks.get(queue as usize) {
            Some(Mark::Closed(next)) => {
                self.closed = *next;
                self.marks[queue as usize] = Mark::Live;
                Some(queue)
            }
            _ => None,
        }
    }

    fn add_queue(&mut self) -> Result<u32, AllocError>
        ensures spare { self.new.1 ≡ self.old.1 }
        ensures fresh { IfOk result (λ q. queue_at self.old.0 q ≡ None) }
        ensures ok { IfOk result (λ q. Becomes self.old.0 self.new.0 q (Some [])) }
        ensures err { OnErr result (self.new.0 ≡ self.old.0) }
    {
        let queue = self.marks.len();
        if queue >= MOST_QUEUES {
            return Err(AllocError);
        }
        self.marks.reserve(1)?;
        self.region.add_queues((queue as u32 + 1) * LANES)?;
        self.marks.push_reserved(Mark::Live);
        Ok(queue as u32)
    }

    /// Appends a message to a queue. It takes no memory.
    pub fn push_back(&mut self, queue: u32, message: Message)
        requires live { IsLive self.old.0 queue }
        requires spare { 0 < self.old.1 }
        requires last { AllByRecursion (λ m. m.number < message.number) (values_at self.old.0 queue) }
        ensures spare { self.new.1 + 1 ≡ self.old.1 }
        ensures queue { Becomes self.old.0 self.new.0 queue (Some (values_at self.old.0 queue ++ message ∷ [])) }
    {
        push_in(&mut self.region, queue, message);
    }

    /// Takes the message of a tag and a number out of a queue. It takes no memory.
    pub fn take(&mut self, queue: u32, tag: u8, number: u32) -> Message
        requires live { IsLive self.old.0 queue }
        requires there { (place : ℕ) × IsMessageAt tag number (values_at self.old.0 queue) place }
        ensures spare { self.new.1 ≡ self.old.1 + 1 }
        ensures number { result.number ≡ number }
        ensures queue { (place : ℕ) × (slice_get (values_at self.old.0 queue) place ≡ Some result)
            × Becomes self.old.0 self.new.0 queue (Some (remove (values_at self.old.0 queue) place)) }
    {
        take_in(&mut self.region, queue, tag, number)
    }

    /// The messages of a queue, in order of number.
    pub fn list(&self, alloc: Global, queue: u32) -> Result<Vec<&Message>, AllocError>
        requires { IsLive self.now.0 queue }
        ensures all { IfOk result (λ ms. IsPermutation (values_at self.now.0 queue) (map (λ m. m.now) ms.items)) }
        ensures order { IfOk result (λ ms. Rise (map (λ m. m.now) ms.items)) }
    {
        list_in(alloc, &self.region, queue)
    }

    /// The first message of a queue that passes a test. It takes no memory.
    pub fn find<P: Test>(&self, queue: u32, test: &P) -> Option<&Message>
        requires { IsLive self.now.0 queue }
        ensures { option_copied result ≡ find (P.passes test.now) (values_at self.now.0 queue) }
    {
        first_in(&self.region, queue, test)
    }

    /// The last message of a queue. It takes no memory.
    pub fn last(&self, queue: u32) -> Option<&Message>
        requires { IsLive self.now.0 queue }
        ensures { option_copied result ≡ last_of (values_at self.now.0 queue) }
    {
        last_in(&self.region, queue)
    }

    /// How many messages a queue has, where it has at most so many.
    pub fn len(&self, queue: u32, most: u32) -> u32
        requires live { IsLive self.now.0 queue }
        requires few { length (values_at self.now.0 queue) ≤ most }
        ensures { result ≡ length (values_at self.now.0 queue) }
    {
        count_in(&self.region, queue, most)
    }

    /// How many nodes are spare.
    pub fn spare(&self) -> u32
        ensures { result ≡ self.now.1 }
    {
        self.region.spare()
    }

    /// Gives back the number of an empty queue. It takes no memory.
    pub fn release(&mut self, queue: u32)
        requires { queue_at self.old.0 queue ≡ Some [] }
        ensures spare { self.new.1 ≡ self.old.1 }
        ensures queue { Becomes self.old.0 self.new.0 queue None }
    {
        self.marks[queue as usize] = Mark::Closed(self.closed);
        self.closed = Some(queue);
    }
}
