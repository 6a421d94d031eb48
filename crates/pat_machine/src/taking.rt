// Jobs that are taken and given back.
ghost use Rattle.std.specs.Prelude.{◌≡◌, ℕ, ◌<◌, length, find, Some, None, ◌↔◌, IsTrue};
ghost use Rattle.pat_semantics_spec.specs.Configs.{Thread as ThreadOf, thread_at};
ghost use Rattle.pat_machine_spec.specs.Lendings.{all_in, allowance_of};
ghost use Rattle.pat_core.specs.Views.{program_view};
ghost use Rattle.pat_machine_spec.specs.Turns.{is_ready, ready_above, turn};
ghost use Rattle.pat_machine.specs.Parted.{shown, IsKept};
ghost use Rattle.pat_machine.specs.Gives.{IsLent, MayTake, Lends, TakeGives, TakeThreadGives, StateGives, GivesBack, all_back};

use crate::job::{Job, StateRefused, TakeRefused};
use crate::parts::Parts;
use pat_machine_indexes::lesser;
use pat_machine_threads::copy_top;
use pat_reduce::ThreadState;

// The most steps of a job.
const ALLOWANCE: u64 = 256;

impl Parts {
    /// The job of the thread whose turn it is.
    pub fn take(&mut self) -> Option<Job>
        requires { IsKept self.old }
        ensures kept { IsKept self.new }
        ensures taken { TakeGives (shown self.old) result (shown self.new) }
    {
        if self.left == 0 {
            return None;
        }
        match self.next_ready() {
            Some(thread) => Some(self.lend(thread)),
            None => None,
        }
    }

    /// Whether a job could be taken.
    pub fn could_take(&self) -> bool
        requires { IsKept self.now }
    {
        self.left > 0 && self.next_ready().is_some()
    }

    // The ready thread whose turn comes first after the one last taken.
    fn next_ready(&self) -> Option<u32>
        requires { IsKept self.now }
        ensures { result ≡ turn (program_view self.now.code.program) self.now.state.config self.now.limit self.now.out.items self.now.last }
    {
        match self.ready_above(self.last) {
            Some(thread) => Some(thread),
            None => self.ready_above(None),
        }
    }

    // The first ready thread above this one, or of all. Those that are about to send aren't looked at where there is no space.
    fn ready_above(&self, last: Option<u32>) -> Option<u32>
        requires { IsKept self.now }
        ensures { result ≡ ready_above (program_view self.now.code.program) self.now.state.config self.now.limit self.now.out.items last }
    {
        let other = self.first_ready(self.waits.awake.above(last));
        if self.state.has_space(self.limit) {
            lesser(other, self.first_ready(self.waits.senders.above(last)))
        } else {
            other
        }
    }

    // The first ready one of these threads.
    fn first_ready(&self, threads: &[u32]) -> Option<u32>
        requires { IsKept self.now }
        ensures { result ≡ find
            (is_ready (program_view self.now.code.program) self.now.state.config self.now.limit self.now.out.items) threads.now }
    {
        self.state.first_ready(
            &self.code,
            &self.names,
            self.limit,
            self.out.as_slice(),
            threads,
        )
    }

    /// The job of a thread.
    pub fn take_thread(&mut self, thread: u32) -> Result<Job, TakeRefused>
        requires { IsKept self.old }
        ensures kept { IsKept self.new }
        ensures taken { TakeThreadGives (shown self.old) thread result (shown self.new) }
    {
        if !self.state.is_ready(
            &self.code,
            &self.names,
            self.limit,
            self.out.as_slice(),
            thread,
        ) {
            return Err(TakeRefused::NotReady);
        }
        if self.left == 0 {
            return Err(TakeRefused::Spent);
        }
        Ok(self.lend(thread))
    }

    // The job of a ready thread leaves.
    fn lend(&mut self, thread: u32) -> Job
        requires kept { IsKept self.old }
        requires ready { MayTake (shown self.old) thread }
        requires some { 0 < self.old.left }
        ensures kept { IsKept self.new }
        ensures thread { result.thread ≡ thread }
        ensures lent { Lends (shown self.old) result (shown self.new) }
    {
        let allowance = self.left.min(ALLOWANCE);
        self.out[thread as usize] = Some(allowance as u32);
        self.left -= allowance;
        self.lent += allowance;
        self.last = Some(thread);
        Job {
            thread,
            allowance: allowance as u32,
        }
    }

    /// Whether the job is one that was handed out and is not back yet.
    pub fn is_lent(&self, job: Job) -> bool
        ensures { IsTrue result ↔ IsLent (shown self.now) job }
    {
        match self.out.as_slice().get(job.thread as usize) {
            Some(Some(allowance)) => *allowance == job.allowance,
            Some(None) => false,
            None => false,
        }
    }

    /// What a job can see of the kept state of its thread: a frame for each step of its allowance.
    pub fn state_of(&self, job: Job) -> Result<ThreadState, StateRefused>
        requires { IsKept self.now }
        ensures { StateGives (shown self.now) job result }
    {
        if !self.is_lent(job) {
            return Err(StateRefused::NotOut);
        }
        match self.state.thread(job.thread) {
            Some(kept) => match copy_top(self.alloc, kept, job.allowance) {
                Ok(state) => Ok(state),
                Err(_) => Err(StateRefused::NoMemory),
            },
            // A thread that is out is there.
            None => unreachable!(),
        }
    }

    /// Takes a job back, if it is out.
    pub fn give_back(&mut self, job: Job)
        requires { IsKept self.old }
        ensures kept { IsKept self.new }
        ensures back { GivesBack (shown self.old) job (shown self.new) }
    {
        if self.is_lent(job) {
            self.out[job.thread as usize] = None;
            self.left += job.allowance as u64;
            self.lent -= job.allowance as u64;
        }
    }

    /// Takes all jobs back.
    pub fn give_back_all(&mut self)
        requires { IsKept self.old }
        ensures kept { IsKept self.new }
        ensures back { shown self.new ≡ all_back (shown self.old) }
    {
        if self.lent == 0 {
            return;
        }
        clear(&mut self.out);
        self.left += self.lent;
        self.lent = 0;
    }
}

fn clear(out: &mut Vec<Option<u32>>)
    ensures { out.new.items ≡ all_in (length out.old.items) }
{
    for i in 0..out.len() {
        out[i] = None;
    }
}
