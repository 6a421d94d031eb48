// Nodes with what they hold.
ghost use Rattle.std.specs.Prelude.{◌≡◌, ℕ, ◌+◌, ◌<◌, ◌≤◌, List, [], ◌∷◌, ◌++◌, length, map, get_or, Some, None, IfOk, IsSome, OnOk, OnErr, slice_get, slice_set, remove, vec_len, vec_capacity};
ghost use Rattle.pat_mailboxes.specs.queues.Pooled.{IsRegion, contents, spare_in};

use crate::queues::chains::Chains;
use std::alloc::{AllocError, Global};
use std::mem;

/// A region of nodes, each of which is free or holds a value of a queue.
#[derive(Drop)]
pub struct Region<T> {
    pub chains: Chains,
    /// What each node holds.
    pub held: Vec<Option<T>>,
    /// How many further nodes there is memory for. Each is made when it is needed, so that memory that isn't needed stays untouched.
    pub fresh: u32,
}

impl<T: Drop> Region<T> {
    pub(crate) fn new(alloc: Global) -> Region<T>
        ensures region { IsRegion result }
        ensures none { (contents result ≡ []) × (spare_in result ≡ 0) }
    {
        Region {
            chains: Chains::new(alloc),
            held: Vec::new(alloc),
            fresh: 0,
        }
    }

    /// Takes memory for further nodes, which are spare then. An error changes nothing that contracts see.
    pub(crate) fn reserve(&mut self, more: u32) -> Result<(), AllocError>
        requires { IsRegion self.old }
        ensures region { IsRegion self.new }
        ensures contents { contents self.new ≡ contents self.old }
        ensures ok { OnOk result (spare_in self.new ≡ spare_in self.old + more) }
        ensures err { OnErr result (spare_in self.new ≡ spare_in self.old) }
    {
        let fresh = self.fresh as usize + more as usize;
        // Nodes are numbered with 32 bits.
        if self.held.len() + fresh > u32::MAX as usize {
            return Err(AllocError);
        }
        self.held.reserve(fresh)?;
        self.chains.links.reserve(fresh)?;
        self.fresh = fresh as u32;
        Ok(())
    }

    /// How many nodes are spare: those that are free, and those that there is memory for.
    pub(crate) fn spare(&self) -> u32
        requires { IsRegion self.now }
        ensures { result ≡ spare_in self.now }
    {
        self.chains.spare + self.fresh
    }

    // Makes a node, if none is free.
    fn ready_node(&mut self)
        requires region { IsRegion self.old }
        requires spare { 0 < spare_in self.old }
        ensures region { IsRegion self.new }
        ensures contents { contents self.new ≡ contents self.old }
        ensures spare { spare_in self.new ≡ spare_in self.old }
        ensures free { 0 < self.new.chains.spare }
    {
        if self.chains.spare == 0 {
            self.make_node();
        }
    }

    // Makes a node, which is free.
    fn make_node(&mut self)
        requires region { IsRegion self.old }
        requires fresh { 0 < self.old.fresh }
        ensures region { IsRegion self.new }
        ensures contents { contents self.new ≡ contents self.old }
        ensures spare { spare_in self.new ≡ spare_in self.old }
        ensures free { 0 < self.new.chains.spare }
    {
        self.fresh -= 1;
        self.held.push_reserved(None);
        self.chains.add_node();
    }

    /// Makes further queues, which are empty, until there are so many. An error changes nothing that contracts see of a queue.
    pub(crate) fn add_queues(&mut self, count: u32) -> Result<(), AllocError>
        requires { IsRegion self.old }
        ensures region { IsRegion self.new }
        ensures spare { spare_in self.new ≡ spare_in self.old }
        ensures more { length (contents self.old) ≤ length (contents self.new) }
        ensures same { (queue : ℕ) → get_or (contents self.new) queue [] ≡ get_or (contents self.old) queue [] }
        ensures ok { OnOk result (count ≤ length (contents self.new)) }
    {
        for _ in self.chains.queues.len()..count as usize {
            self.add_queue()?;
        }
        Ok(())
    }

    // A further queue, which is empty. An error changes nothing.
    fn add_queue(&mut self) -> Result<(), AllocError>
        requires { IsRegion self.old }
        ensures region { IsRegion self.new }
        ensures spare { spare_in self.new ≡ spare_in self.old }
        ensures ok { OnOk result (contents self.new ≡ contents self.old ++ [] ∷ []) }
        ensures err { OnErr result (contents self.new ≡ contents self.old) }
    {
        self.chains.add_queue()
    }

    /// Appends a value to a queue.
    pub(crate) fn push(&mut self, queue: u32, value: T)
        requires region { IsRegion self.old }
        requires there { queue < length (contents self.old) }
        requires spare { 0 < spare_in self.old }
        ensures region { IsRegion self.new }
        ensures spare { spare_in self.new + 1 ≡ spare_in self.old }
        ensures contents { contents self.new ≡ slice_set (contents self.old) queue (get_or (contents self.old) queue [] ++ value ∷ []) }
    {
        self.ready_node();
        let node = self.chains.give(queue);
        self.held[node as usize] = Some(value);
    }

    /// Takes the value at a place out of a queue.
    pub(crate) fn take(&mut self, queue: u32, place: u32) -> T
        requires region { IsRegion self.old }
        requires there { place < length (get_or (contents self.old) queue []) }
        ensures region { IsRegion self.new }
        ensures spare { spare_in self.new ≡ spare_in self.old + 1 }
        ensures value { slice_get (get_or (contents self.old) queue []) place ≡ Some result }
        ensures contents { contents self.new ≡ slice_set (contents self.old) queue (remove (get_or (contents self.old) queue []) place) }
    {
        let node = self.chains.give_back(queue, place);
        match take_out(&mut self.held, node) {
            Some(value) => value,
            // A node of a queue holds a value.
            None => unreachable!(),
        }
    }

    /// The value at a place of a queue.
    pub(crate) fn get(&self, queue: u32, place: u32) -> &T
        requires region { IsRegion self.now }
        requires there { place < length (get_or (contents self.now) queue []) }
        ensures { slice_get (get_or (contents self.now) queue []) place ≡ Some result.now }
    {
        let node = self.chains.node_at(queue, place);
        value_at(self.held.as_slice(), node)
    }

    /// The values of a queue, in order.
    pub(crate) fn list(&self, alloc: Global, queue: u32) -> Result<Vec<&T>, AllocError>
        requires region { IsRegion self.now }
        requires there { queue < length (contents self.now) }
        ensures { IfOk result (λ vs. map (λ v. v.now) vs.items ≡ get_or (contents self.now) queue []) }
    {
        let chain = self.chains.queues[queue as usize];
        let mut values = Vec::new(alloc);
        let mut node = chain.first;
        for _ in 0..chain.len {
            values.push(value_at(self.held.as_slice(), node))?;
            node = self.chains.links[node as usize];
        }
        Ok(values)
    }

    /// How many values a queue has.
    pub(crate) fn len(&self, queue: u32) -> u32
        requires region { IsRegion self.now }
        requires there { queue < length (contents self.now) }
        ensures { result ≡ length (get_or (contents self.now) queue []) }
    {
        self.chains.queues[queue as usize].len
    }
}

// What a node holds; it holds nothing then.
fn take_out<T>(held: &mut Vec<Option<T>>, node: u32) -> Option<T>
    requires { node < vec_len held.old }
    ensures value { result ≡ get_or held.old.items node None }
    ensures after { held.new.items ≡ slice_set held.old.items node None }
    ensures capacity { vec_capacity held.new ≡ vec_capacity held.old }
{
    mem::replace(&mut held[node as usize], None)
}

/// The value that a node holds.
pub(crate) fn value_at<T>(held: &[Option<T>], node: u32) -> &T
    requires { IsSome (get_or held.now node None) }
    ensures { get_or held.now node None ≡ Some result.now }
{
    match &held[node as usize] {
        Some(value) => value,
        // A node of a queue holds a value.
        None => unreachable!(),
    }
}
