// Steps, the entries of a history, and how a run ends.

/// What a step does.
#[derive(Clone, Copy, Debug, PartialEq, Eq)]
pub enum Act {
    Local,
    New,
    Send,
    Spawn,
    Print,
    End,
    Free,
    /// The message by its number.
    Receive(u32),
}

/// One step of a thread.
#[derive(Clone, Copy, Debug, PartialEq, Eq)]
pub struct Step {
    pub thread: u32,
    pub act: Act,
}

/// What one commit did: local steps of a thread, and then at most one shared step.
#[derive(Clone, Copy, Debug, PartialEq, Eq)]
pub struct Entry {
    pub worker: u32,
    pub thread: u32,
    pub local: u32,
    pub shared: Option<Act>,
}
