//! How large what is read, made, shown and run may be: each limit by name.
#![tactic(auto)]

/// The nodes of a pattern.
pub const MOST_NODES: u32 = 65536;

/// The levels of a pattern.
pub const MOST_LEVELS: u32 = 16384;

/// The linear sets of a closed form, and of what is made on the way to it.
pub const MOST_SETS: usize = 4096;

/// The points of a grid.
pub const MOST_POINTS: u64 = 65536;

/// The nodes of a tree that refutes.
pub const MOST_TREE_NODES: u16 = 4096;

/// Open brackets and operators in the text of a program.
pub const MOST_OPEN: u64 = 255;

/// Open statements in the text of a program.
pub const MOST_STATEMENTS: u32 = 4095;

/// The steps of a run.
pub const MOST_STEPS: u32 = 1_000_000;

/// The messages that may be pending in a run.
pub const MOST_MESSAGES: u32 = 1_000_000;

/// The threads that run a program together.
pub const MOST_WORKERS: u32 = 64;

/// The entries of a history that is put in order.
pub const MOST_ENTRIES: usize = 4096;
