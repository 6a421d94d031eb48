// Turns, one after another.
ghost use Rattle.std.specs.Prelude.{◌≡◌, ℕ, ◌+◌, ◌<◌, ◌≤◌, length, option_map, IfOk, OnOk, IfSome, IfNone, Some, None};
ghost use Rattle.pat_semantics_spec.specs.Orders.{IsOrdered};
ghost use Rattle.pat_semantics_spec.specs.Runs.{shared_step};
ghost use Rattle.pat_core.specs.Views.{program_view};
ghost use Rattle.pat_reduce.specs.Places.{IsPlace};
ghost use Rattle.pat_reduce.specs.Views.{act_view, config_view};
ghost use Rattle.pat_checkpoint_spec.specs.Turns.{next_thread};
ghost use Rattle.pat_checkpoint_run.specs.Courses.{HasRoom, HasRun, Notes, TakesTurn};

use crate::locals::take_locals;
use crate::next::{Turn, next_turn};
use crate::sharing::share;
use pat_checkpoint_laws::{made_laws, turn_laws};
use pat_reduce::{Act, Config, Entry};
use pat_reduce_values::Executable;
use pat_sequences::Sequence;
use std::alloc::{AllocError, Global};

// The most steps of a turn.
const ALLOWANCE: u64 = 256;

/// A run on its way: where it stands, its history, the interfaces of the mailboxes that it made, in order, the steps that are left, and the
/// thread whose turn was last.
#[derive(Drop)]
pub struct Course {
    pub config: Config,
    pub entries: Sequence<Entry>,
    pub made: Sequence<u32>,
    pub left: u64,
    pub last: Option<u32>,
}

/// All turns from the configuration, with so many steps.
pub fn run_turns(
    alloc: Global,
    code: &Executable,
    config: Config,
    steps: u64,
) -> Result<Course, AllocError>
    requires ordered { IsOrdered (config_view config) }
    requires room { HasRoom (config_view config) steps }
    ensures { IfOk result (HasRun (program_view code.now.program) (config_view config) steps) }
{
    // Laws: turns unfold by their first one, and what steps make joins.
    turn_laws();
    made_laws();
    let mut course = Course {
        config,
        entries: Sequence::new(alloc),
        made: Sequence::new(alloc),
        left: steps,
        last: None,
    };
    while let Some(turn) = course.next(code) {
        course.take(alloc, code, turn)?;
    }
    Ok(course)
}

impl Course {
    // The thread whose turn it is, where a step is left.
    fn next(&self, code: &Executable) -> Option<Turn>
        requires { IsOrdered (config_view self.now.config) }
        ensures some { IfSome result (λ n. 0 < self.now.left) }
        ensures turn { IfSome result (λ n. next_thread (program_view code.now.program) (config_view self.now.config) self.now.last
            ≡ Some n.thread) }
        ensures place { IfSome result (λ n. IsPlace self.now.config.threads n.thread n.place) }
        ensures none { IfNone result (0 < self.now.left
            → next_thread (program_view code.now.program) (config_view self.now.config) self.now.last ≡ None) }
    {
        if self.left == 0 {
            return None;
        }
        next_turn(code, &self.config, self.last)
    }

    // Takes a turn.
    fn take(&mut self, alloc: Global, code: &Executable, turn: Turn) -> Result<(), AllocError>
        requires ordered { IsOrdered (config_view self.old.config) }
        requires room { HasRoom (config_view self.old.config) self.old.left }
        requires some { 0 < self.old.left }
        requires place { IsPlace self.old.config.threads turn.thread turn.place }
        ensures { OnOk result (TakesTurn (program_view code.now.program) turn.thread self.old self.new) }
    {
        // A law: local steps that go on for as long as they can are those of the turn; an act that is found enabled is its first.
        turn_laws();
        made_laws();
        let allowance = ALLOWANCE.min(self.left) as u32;
        let local = take_locals(alloc, code, &mut self.config, turn, allowance)?;
        if local == allowance {
            return self.note(turn.thread, local, None);
        }
        let shared = share(alloc, code, &mut self.config, &mut self.made, turn)?;
        self.note(turn.thread, local, shared)
    }

    // Notes a turn.
    fn note(&mut self, thread: u32, local: u32, shared: Option<Act>) -> Result<(), AllocError>
        requires { local + length (shared_step thread (option_map act_view shared)) ≤ self.old.left }
        ensures { OnOk result (Notes thread local (option_map act_view shared) self.old self.new) }
    {
        let entry = Entry {
            worker: 0,
            thread,
            local,
            shared,
        };
        self.entries.push(entry)?;
        self.left -= steps_of(local, shared);
        self.last = Some(thread);
        Ok(())
    }
}

// The number of steps of a turn.
fn steps_of(local: u32, shared: Option<Act>) -> u64
    ensures { (t : ℕ) → result ≡ local + length (shared_step t (option_map act_view shared)) }
{
    match shared {
        Some(_) => local as u64 + 1,
        None => local as u64,
    }
}
