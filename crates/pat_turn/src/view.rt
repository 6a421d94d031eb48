// What a pass knows. No value of these types is made.
use std::collections::LinkedList;

pub enum Stage {
    /// Joined to another pass.
    Spent,
    Idle,
    /// Its ticket is out.
    Waits(u64),
    /// Its ticket is served, and the value is out with it.
    Holds(u64),
}

/// What another pass had seen, which was joined to this one.
pub struct Part<E> {
    pub number: u32,
    pub seen: LinkedList<E>,
}

pub struct View<N, E> {
    pub stage: Stage,
    pub number: u32,
    /// None where it is spent.
    pub name: Option<N>,
    pub seen: LinkedList<E>,
    /// How many passes there are, in the view of the first.
    pub made: u32,
    pub joined: LinkedList<Part<E>>,
}
