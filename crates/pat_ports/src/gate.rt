// What a worker passes before and after it commits.

/// Lets a worker pass. A call may wait, and promises nothing.
pub trait Gate: Sync {
    /// Passed by `worker` before its commit `call`. Commits are counted from 1.
    fn before(&self, worker: u32, call: u64);

    /// Passed by `worker` after its commit `call`.
    fn after(&self, worker: u32, call: u64);
}

/// Lets everybody pass at once.
#[derive(Clone, Copy)]
pub struct OpenGate;

impl Gate for OpenGate {
    fn before(&self, _worker: u32, _call: u64) {}

    fn after(&self, _worker: u32, _call: u64) {}
}
