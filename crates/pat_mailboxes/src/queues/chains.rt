// The nodes of a region, each in the chain of the free ones or in that of one queue.
ghost use Rattle.std.specs.Prelude.{◌≡◌, ◌+◌, ◌-◌, ◌<◌, cond, [], ◌∷◌, ◌++◌, length, slice_index, slice_set, remove, OnOk, OnErr, vec_len, vec_capacity};
ghost use Rattle.pat_mailboxes.specs.queues.Chained.{IsChained, queue_nodes, nodes_in};
ghost use Rattle.pat_limits.specs.Limits.{number_count};

use crate::queues::links::node_at;
use std::alloc::{AllocError, Global};

/// The chain of a queue's nodes: its first and its last node, and how many there are.
#[derive(Clone, Copy)]
pub struct Chain {
    pub first: u32,
    /// Says nothing where there is no node.
    pub last: u32,
    pub len: u32,
}

/// Nodes by number. A node's link leads to the node behind it in its chain.
#[derive(Drop)]
pub struct Chains {
    pub links: Vec<u32>,
    pub first_free: u32,
    pub spare: u32,
    pub queues: Vec<Chain>,
}

impl Chains {
    pub(crate) fn new(alloc: Global) -> Chains
        ensures chained { IsChained result [] }
        ensures none { (result.links.items ≡ []) × (result.queues.items ≡ []) × (result.spare ≡ 0) }
    {
        Chains {
            links: Vec::new(alloc),
            first_free: 0,
            spare: 0,
            queues: Vec::new(alloc),
        }
    }

    /// A further node, which is free. There is room for it.
    pub(crate) fn add_node(&mut self)
        requires chained { IsChained self.old [] }
        requires fits { vec_len self.old.links + 1 < number_count }
        requires room { vec_len self.old.links < vec_capacity self.old.links }
        ensures chained { IsChained self.new [] }
        ensures spare { self.new.spare ≡ self.old.spare + 1 }
        ensures queues { queue_nodes self.new ≡ queue_nodes self.old }
        ensures nodes { vec_len self.new.links ≡ vec_len self.old.links + 1 }
        ensures capacity { vec_capacity self.new.links ≡ vec_capacity self.old.links }
    {
        let node = self.links.len() as u32;
        self.links.push_reserved(self.first_free);
        self.first_free = node;
        self.spare += 1;
    }

    /// A further queue, which is empty.
    pub(crate) fn add_queue(&mut self) -> Result<(), AllocError>
        requires { IsChained self.old [] }
        ensures chained { IsChained self.new [] }
        ensures links { (self.new.links ≡ self.old.links) × (self.new.spare ≡ self.old.spare) }
        ensures ok { OnOk result (queue_nodes self.new ≡ queue_nodes self.old ++ [] ∷ []) }
        ensures err { OnErr result (queue_nodes self.new ≡ queue_nodes self.old) }
    {
        let empty = Chain {
            first: 0,
            last: 0,
            len: 0,
        };
        self.queues.push(empty)?;
        Ok(())
    }

    /// The node at a place of a queue.
    pub(crate) fn node_at(&self, queue: u32, place: u32) -> u32
        requires chained { IsChained self.now [] }
        requires there { place < length (nodes_in (queue_nodes self.now) queue) }
        ensures { result ≡ slice_index (nodes_in (queue_nodes self.now) queue) place }
    {
        let chain = self.queues[queue as usize];
        // No walk leads to the last one.
        if place + 1 == chain.len {
            return chain.last;
        }
        node_at(self.links.as_slice(), chain.first, chain.len, place)
    }

    /// Moves the first free node to the end of a queue.
    pub(crate) fn give(&mut self, queue: u32) -> u32
        requires chained { IsChained self.old [] }
        requires there { queue < length (queue_nodes self.old) }
        requires spare { 0 < self.old.spare }
        ensures chained { IsChained self.new [] }
        ensures spare { self.new.spare + 1 ≡ self.old.spare }
        ensures nodes { length self.new.links.items ≡ length self.old.links.items }
        ensures capacity { vec_capacity self.new.links ≡ vec_capacity self.old.links }
        ensures queues { queue_nodes self.new ≡ slice_set (queue_nodes self.old) queue
            (nodes_in (queue_nodes self.old) queue ++ result ∷ []) }
    {
        let node = self.pop_free();
        self.append(queue, node);
        node
    }

    /// Moves the node at a place of a queue to the free ones.
    pub(crate) fn give_back(&mut self, queue: u32, place: u32) -> u32
        requires chained { IsChained self.old [] }
        requires there { place < length (nodes_in (queue_nodes self.old) queue) }
        ensures chained { IsChained self.new [] }
        ensures spare { self.new.spare ≡ self.old.spare + 1 }
        ensures nodes { length self.new.links.items ≡ length self.old.links.items }
        ensures capacity { vec_capacity self.new.links ≡ vec_capacity self.old.links }
        ensures node { result ≡ slice_index (nodes_in (queue_nodes self.old) queue) place }
        ensures queues { queue_nodes self.new ≡ slice_set (queue_nodes self.old) queue
            (remove (nodes_in (queue_nodes self.old) queue) place) }
    {
        let node = self.detach(queue, place);
        self.push_free(node);
        node
    }

    // Takes out the first free node.
    fn pop_free(&mut self) -> u32
        requires chained { IsChained self.old [] }
        requires spare { 0 < self.old.spare }
        ensures chained { IsChained self.new (result ∷ []) }
        ensures spare { self.new.spare + 1 ≡ self.old.spare }
        ensures nodes { length self.new.links.items ≡ length self.old.links.items }
        ensures capacity { vec_capacity self.new.links ≡ vec_capacity self.old.links }
        ensures queues { queue_nodes self.new ≡ queue_nodes self.old }
    {
        let node = self.first_free;
        let next = self.links[node as usize];
        self.first_free = next;
        self.spare -= 1;
        node
    }

    // Puts a node that stands in no chain in front of the free ones.
    fn push_free(&mut self, node: u32)
        requires { IsChained self.old (node ∷ []) }
        ensures chained { IsChained self.new [] }
        ensures spare { self.new.spare ≡ self.old.spare + 1 }
        ensures nodes { length self.new.links.items ≡ length self.old.links.items }
        ensures capacity { vec_capacity self.new.links ≡ vec_capacity self.old.links }
        ensures queues { queue_nodes self.new ≡ queue_nodes self.old }
    {
        self.links[node as usize] = self.first_free;
        self.first_free = node;
        self.spare += 1;
    }

    // Puts a node that stands in no chain behind those of a queue.
    fn append(&mut self, queue: u32, node: u32)
        requires chained { IsChained self.old (node ∷ []) }
        requires there { queue < length (queue_nodes self.old) }
        ensures chained { IsChained self.new [] }
        ensures spare { self.new.spare ≡ self.old.spare }
        ensures nodes { length self.new.links.items ≡ length self.old.links.items }
        ensures capacity { vec_capacity self.new.links ≡ vec_capacity self.old.links }
        ensures queues { queue_nodes self.new ≡ slice_set (queue_nodes self.old) queue
            (nodes_in (queue_nodes self.old) queue ++ node ∷ []) }
    {
        let chain = self.queues[queue as usize];
        if chain.len == 0 {
            self.queues[queue as usize] = Chain {
                first: node,
                last: node,
                len: 1,
            };
        } else {
            self.links[chain.last as usize] = node;
            self.queues[queue as usize] = Chain {
                first: chain.first,
                last: node,
                len: chain.len + 1,
            };
        }
    }

    // Takes out the node at a place of a queue.
    fn detach(&mut self, queue: u32, place: u32) -> u32
        requires chained { IsChained self.old [] }
        requires there { place < length (nodes_in (queue_nodes self.old) queue) }
        ensures chained { IsChained self.new (result ∷ []) }
        ensures spare { self.new.spare ≡ self.old.spare }
        ensures nodes { length self.new.links.items ≡ length self.old.links.items }
        ensures capacity { vec_capacity self.new.links ≡ vec_capacity self.old.links }
        ensures node { result ≡ slice_index (nodes_in (queue_nodes self.old) queue) place }
        ensures queues { queue_nodes self.new ≡ slice_set (queue_nodes self.old) queue
            (remove (nodes_in (queue_nodes self.old) queue) place) }
    {
        if place == 0 {
            self.pop_first(queue)
        } else {
            let before = self.node_at(queue, place - 1);
            self.unlink_behind(queue, place, before)
        }
    }

    // Takes out the first node of a queue.
    fn pop_first(&mut self, queue: u32) -> u32
        requires chained { IsChained self.old [] }
        requires there { 0 < length (nodes_in (queue_nodes self.old) queue) }
        ensures chained { IsChained self.new (result ∷ []) }
        ensures spare { self.new.spare ≡ self.old.spare }
        ensures nodes { length self.new.links.items ≡ length self.old.links.items }
        ensures capacity { vec_capacity self.new.links ≡ vec_capacity self.old.links }
        ensures node { result ≡ slice_index (nodes_in (queue_nodes self.old) queue) 0 }
        ensures queues { queue_nodes self.new ≡ slice_set (queue_nodes self.old) queue (remove (nodes_in (queue_nodes self.old) queue) 0) }
    {
        let chain = self.queues[queue as usize];
        let next = self.links[chain.first as usize];
        self.queues[queue as usize] = Chain {
            first: next,
            last: chain.last,
            len: chain.len - 1,
        };
        chain.first
    }

    // Takes out the node at a place of a queue, which is the one behind `before`.
    fn unlink_behind(&mut self, queue: u32, place: u32, before: u32) -> u32
        requires chained { IsChained self.old [] }
        requires behind { 0 < place }
        requires there { place < length (nodes_in (queue_nodes self.old) queue) }
        requires before { before ≡ slice_index (nodes_in (queue_nodes self.old) queue) (place - 1) }
        ensures chained { IsChained self.new (result ∷ []) }
        ensures spare { self.new.spare ≡ self.old.spare }
        ensures nodes { length self.new.links.items ≡ length self.old.links.items }
        ensures capacity { vec_capacity self.new.links ≡ vec_capacity self.old.links }
        ensures node { result ≡ slice_index (nodes_in (queue_nodes self.old) queue) place }
        ensures queues { queue_nodes self.new ≡ slice_set (queue_nodes self.old) queue
            (remove (nodes_in (queue_nodes self.old) queue) place) }
    {
        let chain = self.queues[queue as usize];
        let node = self.links[before as usize];
        let next = self.links[node as usize];
        let last = last_of(place + 1 == chain.len, before, chain.last);
        self.links[before as usize] = next;
        self.queues[queue as usize] = Chain {
            first: chain.first,
            last,
            len: chain.len - 1,
        };
        node
    }
}

// The last node where the one behind `before` is taken out.
fn last_of(is_last: bool, before: u32, last: u32) -> u32
    ensures { result ≡ cond is_last before last }
{
    if is_last { before } else { last }
}
