// Whose turn is next.
ghost use Rattle.std.specs.Prelude.{◌≡◌, ◌&&◌, ℕ, Bool, IfSome, IfNone, Some, None};
ghost use Rattle.std.specs.Map.{keys_of};
ghost use Rattle.pat_semantics_spec.specs.Orders.{AscendsFrom, IsOrdered};
ghost use Rattle.pat_semantics_spec.specs.Runs.{can_step_thread};
ghost use Rattle.pat_machine_spec.specs.Turns.{is_above};
ghost use Rattle.pat_core.specs.Views.{program_view};
ghost use Rattle.pat_reduce.specs.Places.{IsPlace};
ghost use Rattle.pat_reduce.specs.Views.{config_view, threads_view};
ghost use Rattle.pat_checkpoint_spec.specs.Turns.{next_thread};
ghost use Rattle.pat_checkpoint_run.specs.Searches.{first_from};

use pat_reduce::{Config, ThreadState};
use pat_reduce_values::Executable;

/// A thread whose turn it is, and its place.
#[derive(Clone, Copy)]
pub struct Turn {
    pub thread: u32,
    pub place: usize,
}

/// The thread whose turn it is: the first above the last one that can take a step, or else the first of all.
pub fn next_turn(code: &Executable, config: &Config, last: Option<u32>) -> Option<Turn>
    requires { IsOrdered (config_view config.now) }
    ensures some { IfSome result (λ n. next_thread (program_view code.now.program) (config_view config.now) last ≡ Some n.thread) }
    ensures place { IfSome result (λ n. IsPlace config.now.threads n.thread n.place) }
    ensures none { IfNone result (next_thread (program_view code.now.program) (config_view config.now) last ≡ None) }
{
    let above = place_above(config.threads.as_slice(), last);
    match able_from(code, config, above) {
        Some(turn) => Some(turn),
        None => able_from(code, config, 0),
    }
}

// The place of the first thread above this one, or that behind the last thread.
fn place_above(threads: &[(u32, ThreadState)], last: Option<u32>) -> usize
    requires { AscendsFrom 0 (keys_of (threads_view threads.now)) }
    ensures { (can : ℕ → Bool) → first_from (λ t. is_above last t && can t) threads.now 0 ≡ first_from can threads.now result }
{
    match last {
        Some(last) => threads.partition_point(|own| own.0 <= last),
        None => 0,
    }
}

/// The first thread, from this place on, that can take a step.
pub fn able_from(code: &Executable, config: &Config, start: usize) -> Option<Turn>
    requires { IsOrdered (config_view config.now) }
    ensures some { IfSome result (λ n. first_from
        (can_step_thread (program_view code.now.program) (config_view config.now)) config.now.threads start ≡ Some n.thread) }
    ensures place { IfSome result (λ n. IsPlace config.now.threads n.thread n.place) }
    ensures none { IfNone result (first_from
        (can_step_thread (program_view code.now.program) (config_view config.now)) config.now.threads start ≡ None) }
{
    let threads = config.threads.as_slice();
    for place in start..threads.len() {
        let thread = threads[place].0;
        if config.act_at_place(code, thread, place).is_some() {
            return Some(Turn { thread, place });
        }
    }
    None
}
