// The end of a job: what its local steps made of its thread, and the shared step that is open then.
ghost use Rattle.std.specs.Prelude.{◌≡◌, ℕ, ◌<◌, ◌≤◌, Option, length, Some, OnOk, OnErr, vec_len, vec_capacity};
ghost use Rattle.pat_semantics_spec.specs.WellFormed.{WellFormed};
ghost use Rattle.pat_semantics_spec.specs.Configs.{Thread as ThreadOf, Config as ConfigOf, thread_at};
ghost use Rattle.pat_semantics_spec.specs.Orders.{IsOrdered};
ghost use Rattle.pat_semantics_spec.specs.Steps.{Act as ActOf, ActReceive, message_at};
ghost use Rattle.pat_core.specs.Views.{program_view};
ghost use Rattle.pat_reduce.specs.threads.ThreadViews.{thread_view};
ghost use Rattle.pat_machine_spec.specs.Commits.{Shares};
ghost use Rattle.pat_machine_spec.specs.Machines.{HasRoom, IsTypedBySome};
ghost use Rattle.pat_machine_laws.specs.refcounts.Counting.{AreCounted, TellsAlone, is_unnamed};
ghost use Rattle.pat_machine_threads.specs.Settling.{settled_thread};
ghost use Rattle.pat_machine_states.specs.Boxes.{HasPlace};
ghost use Rattle.pat_machine_states.specs.Taking.{taken_act, taken_message};
ghost use Rattle.pat_machine_steps.specs.shared_steps.Settling.{IsSettled, StandsStill, half_way, Finishes};
ghost use Rattle.pat_machine_steps.specs.shared_steps.Leaving.{CanBeCounted};
ghost use Rattle.pat_limits.specs.Limits.{number_count};

use crate::shared_steps::counting::{count_end, count_thread, leave_thread};
use pat_machine_states::{Counted, IndexedConfig, RefCounts, Taken};
use pat_machine_threads::Settled;
use pat_reduce_values::Executable;
use std::alloc::{AllocError, Global};

/// Puts what the local steps made of the top of a thread in its place, and takes the open shared step, if they didn't use
/// up the allowance. RefCounts stay counted; there is room for one more mailbox. An error changes nothing of the configuration.
pub fn share(
    alloc: Global,
    code: &Executable,
    state: &mut IndexedConfig,
    names: &mut RefCounts,
    limit: u32,
    thread: u32,
    allowance: u32,
    settled: Settled,
    taken: &mut Option<Taken>,
) -> Result<(), AllocError>
    requires well { WellFormed (program_view code.now.program) }
    requires ordered { IsOrdered state.old.config }
    requires room { HasRoom state.old.config }
    requires space { HasPlace state.old limit }
    requires settled { IsSettled (program_view code.now.program) state.old.config thread allowance settled }
    requires frames { length settled.end.frames < number_count }
    requires typed { (s : ThreadOf) → thread_at state.old.config thread ≡ Some s
        → IsTypedBySome (program_view code.now.program) (half_way state.old.config thread s settled) }
    requires place { vec_len names.old.times < vec_capacity names.old.times }
    requires counted { AreCounted names.old.times.items state.old.config }
    requires before { CanBeCounted state.old.config }
    requires after { (s : ThreadOf) (a : Option ActOf) (d : ConfigOf) → thread_at state.old.config thread ≡ Some s
        → Finishes (program_view code.now.program) allowance limit (half_way state.old.config thread s settled) thread settled.steps a d
        → CanBeCounted d }
    ensures ok { OnOk result ((s : ThreadOf) → thread_at state.old.config thread ≡ Some s
        → Finishes (program_view code.now.program) allowance limit (half_way state.old.config thread s settled) thread settled.steps
        (taken_act taken.new) state.new.config) }
    ensures message { OnOk result ((k : ℕ) → taken_act taken.new ≡ Some (ActReceive k)
        → taken_message taken.new ≡ message_at state.old.config k) }
    ensures err { OnErr result (state.new.config ≡ state.old.config) }
    ensures places { state.new.places ≡ state.old.places }
    ensures counted { AreCounted names.new.times.items state.new.config }
{
    let frames = settled.end.frames.len() as u32;
    let gone = settled.gone;
    let newcomer = state.threads_made();
    leave_thread(state, names, thread, gone);
    match finish(
        alloc, code, state, names, limit, thread, allowance, settled, taken,
    ) {
        Ok(()) => {
            count_end(state, names, thread, frames, newcomer, taken);
            Ok(())
        }
        Err(AllocError) => {
            count_thread(state, names, thread, gone);
            Err(AllocError)
        }
    }
}

/// Takes the open shared step of a thread that has no local step, where it stands: no more than its control changes. RefCounts
/// stay counted; there is room for one more mailbox. An error changes nothing of the configuration.
pub fn share_in_place(
    alloc: Global,
    code: &Executable,
    state: &mut IndexedConfig,
    names: &mut RefCounts,
    limit: u32,
    thread: u32,
    taken: &mut Option<Taken>,
) -> Result<(), AllocError>
    requires well { WellFormed (program_view code.now.program) }
    requires ordered { IsOrdered state.old.config }
    requires room { HasRoom state.old.config }
    requires space { HasPlace state.old limit }
    requires still { StandsStill (program_view code.now.program) state.old.config thread }
    requires typed { IsTypedBySome (program_view code.now.program) state.old.config }
    requires place { vec_len names.old.times < vec_capacity names.old.times }
    requires counted { AreCounted names.old.times.items state.old.config }
    requires before { CanBeCounted state.old.config }
    requires after { (a : Option ActOf) (d : ConfigOf) → Shares (program_view code.now.program) limit state.old.config thread a d
        → CanBeCounted d }
    ensures ok { OnOk result (Shares (program_view code.now.program) limit state.old.config thread (taken_act taken.new) state.new.config) }
    ensures message { OnOk result ((k : ℕ) → taken_act taken.new ≡ Some (ActReceive k)
        → taken_message taken.new ≡ message_at state.old.config k) }
    ensures err { OnErr result (state.new.config ≡ state.old.config) }
    ensures places { state.new.places ≡ state.old.places }
    ensures counted { AreCounted names.new.times.items state.new.config }
{
    let newcomer = state.threads_made();
    leave_thread(state, names, thread, 0);
    match state.take_open(alloc, code, limit, thread, Counted::Others(names), taken) {
        Ok(()) => {
            count_end(state, names, thread, 0, newcomer, taken);
            Ok(())
        }
        Err(AllocError) => {
            count_thread(state, names, thread, 0);
            Err(AllocError)
        }
    }
}

// The local steps' end, and the shared step. An error changes nothing.
fn finish(
    alloc: Global,
    code: &Executable,
    state: &mut IndexedConfig,
    names: &RefCounts,
    limit: u32,
    thread: u32,
    allowance: u32,
    settled: Settled,
    taken: &mut Option<Taken>,
) -> Result<(), AllocError>
    requires room { HasRoom state.old.config }
    requires space { HasPlace state.old limit }
    requires settled { IsSettled (program_view code.now.program) state.old.config thread allowance settled }
    requires typed { (s : ThreadOf) → thread_at state.old.config thread ≡ Some s
        → IsTypedBySome (program_view code.now.program) (half_way state.old.config thread s settled) }
    requires alone { (s : ThreadOf) → thread_at state.old.config thread ≡ Some s
        → TellsAlone (program_view code.now.program) (half_way state.old.config thread s settled) thread (settled_thread s settled)
        (is_unnamed (program_view code.now.program) names.now.times.items (thread_view settled.end)) }
    ensures ok { OnOk result ((s : ThreadOf) → thread_at state.old.config thread ≡ Some s
        → Finishes (program_view code.now.program) allowance limit (half_way state.old.config thread s settled) thread settled.steps
        (taken_act taken.new) state.new.config) }
    ensures message { OnOk result ((k : ℕ) → taken_act taken.new ≡ Some (ActReceive k)
        → taken_message taken.new ≡ message_at state.old.config k) }
    ensures err { OnErr result (state.new.config ≡ state.old.config) }
    ensures places { state.new.places ≡ state.old.places }
{
    let Settled { end, gone, steps } = settled;
    if steps < allowance {
        let counted = Counted::Others(names);
        return state.share(alloc, code, limit, thread, gone, end, counted, taken);
    }
    state.put(alloc, thread, gone, end)?;
    *taken = None;
    Ok(())
}
