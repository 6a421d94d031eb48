// The machine.
ghost use Rattle.std.specs.Prelude.{◌≡◌, ℕ, ◌<◌, ◌≤◌, List, IfOk, OnOk, OnErr};
ghost use Rattle.pat_reduce.specs.threads.ThreadViews.{thread_view};
ghost use Rattle.pat_reduce.specs.Views.{config_view};
ghost use Rattle.pat_machine_spec.specs.Commits.{IsLocalRun};
ghost use Rattle.pat_machine.specs.Remains.{remains_of};
ghost use Rattle.pat_machine.specs.Shown.{program_of, IsMachine, IsNew};
ghost use Rattle.pat_machine.specs.Gives.{IsLent, TakeGives, TakeThreadGives, StateGives, Committed, CommitGives, GivesBack, OutcomeGives, all_back};
ghost use Rattle.pat_machine.specs.Driving.{IsDriven, IsStopped};
ghost use Rattle.pat_machine.specs.Reading.{ShowsMailboxes};
ghost use Rattle.pat_machine.specs.declared.job.Receipt.{Receipt as ReceiptOf};
ghost use Rattle.pat_limits.specs.Limits.{most_messages, most_steps};

use crate::job::{CommitRefused, Job, Named, Outcome, Receipt, StateRefused, TakeRefused};
use crate::mailboxes::MailboxesOf;
use crate::parts::Parts;
use pat_core::Program;
use pat_logged_value::Kept;
use pat_machine_steps::Remains;
use pat_machine_threads::LocalRun;
use pat_reduce::{Config, Entry, ThreadState};
use pat_sequences::Text;
use pat_typed_program::Accepted;
use std::alloc::{AllocError, Global};
use std::marker::Model;

/// A program that runs by jobs and commits. Its parts stand in a box, since a turn moves it at each hold.
pub struct Machine {
    parts: Box<Parts>,
}

impl Drop for Machine {
    fn drop(self) {
        let Machine { parts: _ } = self;
    }
}

impl Model for Machine {
    ghost use Rattle.std.specs.Coded.{codes};
    ghost use Rattle.pat_patterns.specs.contracts.pattern.Pattern as the_pattern;
    ghost use Rattle.pat_core.specs.contracts.expression.Expr as the_expression;
    ghost use Rattle.pat_machine.specs.Shown.{Shown};

    ghost Value = { Shown };

    ghost coded = { Prim.hlevel (codes, the_pattern.the_row.coded, the_expression.the_row.coded) };

    ghost use Rattle.pat_machine.specs.Parted.{shown, IsKept};

    ghost view = { λ m. shown m.parts.value };

    ghost invariant = { λ m. IsKept m.parts.value };
}

impl Kept for Machine {
    type Name = Named;

    type Entry = Entry;

    ghost name = { λ m. m.named };

    ghost log = { λ m. m.history };

    ghost by = { λ e. e.worker };
}

impl Machine {
    /// The start of a program, with so many steps and at most so many pending messages. The places for these are taken here.
    pub fn new(
        alloc: Global,
        accepted: Accepted,
        steps: u64,
        messages: u32,
    ) -> Result<Machine, AllocError>
        requires steps { steps ≤ most_steps }
        requires messages { (0 < messages) × (messages ≤ most_messages) }
        ensures { IfOk result (IsNew accepted steps messages) }
    {
        let parts = Parts::new(alloc, accepted.into_program(), steps, messages)?;
        Ok(Machine {
            parts: Box::new(alloc, parts)?,
        })
    }

    /// The job of the ready thread whose turn comes first. It takes no memory.
    pub fn take(&mut self) -> Option<Job>
        ensures { TakeGives self.old result self.new }
    {
        self.parts.take()
    }

    /// Whether a job could be taken. It takes no memory. Only who is woken hangs on it, so no clause speaks of it.
    pub fn could_take(&self) -> bool {
        self.parts.could_take()
    }

    /// The job of a thread. It takes no memory.
    pub fn take_thread(&mut self, thread: u32) -> Result<Job, TakeRefused>
        ensures { TakeThreadGives self.old thread result self.new }
    {
        self.parts.take_thread(thread)
    }

    /// The state that a job begins with: its thread's, with at most a frame for each step of its allowance.
    pub fn state_of(&self, job: &Job) -> Result<ThreadState, StateRefused>
        ensures { StateGives self.now job.now result }
    {
        self.parts.state_of(*job)
    }

    /// Commits a job: its local steps, and then the shared step that is open.
    pub fn commit(&mut self, worker: u32, job: Job, run: LocalRun) -> Result<Receipt, CommitRefused>
        requires { IsLocalRun (program_of self.old) job.allowance (thread_view run.start) run.steps (thread_view run.end) }
        ensures { CommitGives self.old worker job result self.new }
    {
        self.parts.commit(worker, job, run)
    }

    /// Commits a job that is out, with its local steps taken inside. Where memory runs out the job goes back.
    pub fn serve(&mut self, worker: u32, job: Job) -> Result<Receipt, AllocError>
        requires { IsLent self.old job }
        ensures ok { IfOk result (λ r. Committed self.old worker job r self.new) }
        ensures err { OnErr result (GivesBack self.old job self.new) }
    {
        self.parts.serve(worker, job)
    }

    /// Takes a job back, if it is out. It takes no memory.
    pub fn give_back(&mut self, job: Job)
        ensures { GivesBack self.old job self.new }
    {
        self.parts.give_back(job);
    }

    /// Takes all jobs back. It takes no memory.
    pub fn give_back_all(&mut self)
        ensures { self.new ≡ all_back self.old }
    {
        self.parts.give_back_all();
    }

    /// The outcome, where no thread is out and nothing can be taken. It takes no memory.
    pub fn outcome(&self) -> Option<Outcome>
        ensures { OutcomeGives self.now result }
    {
        self.parts.outcome()
    }

    /// Takes all jobs back, and serves one job after another, up to the outcome.
    pub fn drive(&mut self, worker: u32) -> Result<Vec<Receipt>, AllocError>
        ensures ok { IfOk result (λ rs. IsDriven self.old worker rs.items self.new) }
        ensures err { OnErr result (IsStopped self.old worker self.new) }
    {
        self.parts.drive(worker)
    }

    /// Takes all jobs back, and serves one job after another, up to the outcome. It keeps no receipts.
    pub fn run(&mut self, worker: u32) -> Result<(), AllocError>
        ensures ok { OnOk result ((rs : List ReceiptOf) × IsDriven self.old worker rs self.new) }
        ensures err { OnErr result (IsStopped self.old worker self.new) }
    {
        self.parts.run(worker)
    }

    /// The program.
    pub fn program(&self) -> &Program
        ensures { result.now ≡ self.now.named.program }
    {
        &self.parts.code.program
    }

    /// The history, and what it is to the configuration.
    pub fn history(&self) -> &[Entry]
        ensures history { result.now ≡ self.now.history }
        ensures facts { IsMachine self.now }
    {
        self.parts.history.as_slice()
    }

    /// The mailboxes: which are live, what is pending in each, and how often each is named. It takes no memory.
    pub fn mailboxes(&self) -> MailboxesOf<'_>
        ensures { ShowsMailboxes self.now result }
    {
        self.parts.mailboxes()
    }

    /// The configuration, by itself.
    pub fn config(&self) -> Result<Config, AllocError>
        ensures config { IfOk result (λ c. config_view c ≡ self.now.config) }
        ensures facts { IsMachine self.now }
    {
        self.parts.state.copy(self.parts.alloc)
    }

    /// What is left of the configuration: the threads that are there, by number, and how many mailboxes are live.
    pub fn remains(&self) -> Result<Remains, AllocError>
        ensures { IfOk result (λ r. r ≡ remains_of self.now.config) }
    {
        self.parts.state.remains(self.parts.alloc)
    }

    /// The printed lines.
    pub fn printed(&self) -> &[Text]
        ensures { result.now ≡ self.now.config.printed }
    {
        self.parts.state.printed()
    }
}
