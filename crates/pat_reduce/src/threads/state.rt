// Threads and messages.
use pat_reduce_values::Value;
use pat_sequences::{Sequence, Stack};

/// Where a thread stands: before a node, with the values of the variables free in it (by ascending number), or holding a value.
#[derive(Drop)]
pub enum Control {
    Node {
        node: u32,
        env: Sequence<(u32, Value)>,
    },
    Returned(Value),
}

/// A body that waits for a value under a name, with values for just its other free variables.
#[derive(Drop)]
pub struct Frame {
    pub var: Option<u32>,
    pub body: u32,
    pub env: Sequence<(u32, Value)>,
}

/// A thread.
pub struct ThreadState {
    pub control: Control,
    pub frames: Stack<Frame>,
}

impl Drop for ThreadState {
    fn drop(self) {
        let ThreadState {
            control: _,
            frames: _,
        } = self;
    }
}

/// A pending message.
#[derive(Drop)]
pub struct Message {
    pub number: u32,
    pub mailbox: u32,
    pub tag: u8,
    pub values: Sequence<Value>,
}
