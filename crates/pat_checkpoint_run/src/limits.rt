// Which checkpoints a run goes on from.

/// The next number of threads, of mailboxes or of messages, of a checkpoint that a run goes on from: so none runs out within its steps.
pub const MOST_NEXT_NUMBER: u32 = 4_000_000_000;
