// Which threads can go on.
ghost use Rattle.std.specs.Prelude.{◌≡◌, find};
ghost use Rattle.pat_core.specs.Views.{program_view};
ghost use Rattle.pat_machine_spec.specs.Opens.{can_go_on};
ghost use Rattle.pat_machine_spec.specs.Lendings.{is_out};
ghost use Rattle.pat_machine_spec.specs.Turns.{is_ready};
ghost use Rattle.pat_machine_indexes.specs.refcounts.Counting.{TellOfEach};

use crate::IndexedConfig;
use pat_machine_indexes::{Counted, RefCounts};
use pat_reduce_values::Executable;

impl IndexedConfig {
    /// The first of these threads that is ready. It takes no memory.
    pub fn first_ready(
        &self,
        code: &Executable,
        names: &RefCounts,
        limit: u32,
        out: &[Option<u32>],
        threads: &[u32],
    ) -> Option<u32>
        requires told { TellOfEach (program_view code.now.program) self.now.config names.now.times.items }
        ensures { result ≡ find (is_ready (program_view code.now.program) self.now.config limit out.now) threads.now }
    {
        for thread in threads {
            if self.is_ready(code, names, limit, out, *thread) {
                return Some(*thread);
            }
        }
        None
    }

    /// Whether a job for the thread could be handed out: it has an open step, and none is out yet. It takes no memory.
    pub fn is_ready(
        &self,
        code: &Executable,
        names: &RefCounts,
        limit: u32,
        out: &[Option<u32>],
        thread: u32,
    ) -> bool
        requires told { TellOfEach (program_view code.now.program) self.now.config names.now.times.items }
        ensures { result ≡ is_ready (program_view code.now.program) self.now.config limit out.now thread }
    {
        !is_out(out, thread) && self.can_go_on(code, names, limit, thread)
    }

    /// Whether a step of the thread is open.
    pub fn can_go_on(&self, code: &Executable, names: &RefCounts, limit: u32, thread: u32) -> bool
        requires told { TellOfEach (program_view code.now.program) self.now.config names.now.times.items }
        ensures { result ≡ can_go_on (program_view code.now.program) self.now.config limit thread }
    {
        self.open_act(code, limit, thread, Counted::All(names))
            .is_some()
    }
}

fn is_out(out: &[Option<u32>], thread: u32) -> bool
    ensures { result ≡ is_out out.now thread }
{
    match out.get(thread as usize) {
        Some(Some(_)) => true,
        Some(None) => false,
        None => false,
    }
}
