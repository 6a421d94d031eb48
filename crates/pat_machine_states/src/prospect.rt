// Whether a run can go on.
ghost use Rattle.std.specs.Prelude.{◌≡◌, ◌≤◌, ◌&&◌, length};
ghost use Rattle.std.specs.List.{list_any};
ghost use Rattle.pat_semantics_spec.specs.Runs.{can_step_thread};
ghost use Rattle.pat_core.specs.Views.{program_view};
ghost use Rattle.pat_machine_spec.specs.Opens.{has_space, can_go_on};
ghost use Rattle.pat_machine_laws.specs.wakeups.Senders.{AreCandidates};
ghost use Rattle.pat_machine_indexes.specs.refcounts.Counting.{TellOfEach};
ghost use Rattle.pat_machine_states.specs.Prospects.{HasProspect};

use crate::IndexedConfig;
use pat_machine_indexes::{Counted, RefCounts};
use pat_reduce_values::Executable;

/// How the threads stand.
#[derive(Clone, Copy, Debug, PartialEq, Eq)]
pub enum Prospect {
    /// Each thread ended.
    Over,
    /// Threads are left, and no step is enabled.
    Stuck,
    /// Steps are enabled, and none is open.
    Full,
    /// A step is open.
    Open,
}

impl IndexedConfig {
    /// How the threads stand, where those that may have an enabled step are known, and among them those that are about to send.
    /// It takes no memory.
    pub fn prospect(
        &self,
        code: &Executable,
        names: &RefCounts,
        limit: u32,
        others: &[u32],
        senders: &[u32],
    ) -> Prospect
        requires told { TellOfEach (program_view code.now.program) self.now.config names.now.times.items }
        requires candidates { AreCandidates (program_view code.now.program) self.now.config others.now senders.now }
        ensures { HasProspect (program_view code.now.program) self.now.config limit result }
    {
        if self.placed.is_over() {
            return Prospect::Over;
        }
        if self.has_open(code, names, limit, others) {
            return Prospect::Open;
        }
        if self.may_send(code, names, limit, senders) {
            return Prospect::Open;
        }
        if self.has_enabled(code, names, others) {
            return Prospect::Full;
        }
        if self.has_enabled(code, names, senders) {
            Prospect::Full
        } else {
            Prospect::Stuck
        }
    }

    // Whether one of the senders has an open step. They aren't looked at where there is no space.
    fn may_send(&self, code: &Executable, names: &RefCounts, limit: u32, senders: &[u32]) -> bool
        requires told { TellOfEach (program_view code.now.program) self.now.config names.now.times.items }
        ensures { result ≡ (has_space self.now.config limit
            && list_any (can_go_on (program_view code.now.program) self.now.config limit) senders.now) }
    {
        self.has_space(limit) && self.has_open(code, names, limit, senders)
    }

    // Whether one of these threads has an enabled step.
    fn has_enabled(&self, code: &Executable, names: &RefCounts, threads: &[u32]) -> bool
        requires told { TellOfEach (program_view code.now.program) self.now.config names.now.times.items }
        ensures { result ≡ list_any (can_step_thread (program_view code.now.program) self.now.config) threads.now }
    {
        for thread in threads {
            if self.is_enabled(code, names, *thread) {
                return true;
            }
        }
        false
    }

    // Whether a step of the thread is enabled.
    fn is_enabled(&self, code: &Executable, names: &RefCounts, thread: u32) -> bool
        requires told { TellOfEach (program_view code.now.program) self.now.config names.now.times.items }
        ensures { result ≡ can_step_thread (program_view code.now.program) self.now.config thread }
    {
        self.enabled_act(code, thread, Counted::All(names))
            .is_some()
    }

    // Whether one of these threads has an open step.
    fn has_open(&self, code: &Executable, names: &RefCounts, limit: u32, threads: &[u32]) -> bool
        requires told { TellOfEach (program_view code.now.program) self.now.config names.now.times.items }
        ensures { result ≡ list_any (can_go_on (program_view code.now.program) self.now.config limit) threads.now }
    {
        for thread in threads {
            if self.can_go_on(code, names, limit, *thread) {
                return true;
            }
        }
        false
    }
}
