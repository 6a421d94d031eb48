// Local steps of a thread outside a configuration.
ghost use Rattle.std.specs.Prelude.{◌≡◌, ◌<◌, Some, IfOk, IfErr, IsTrue, IsFalse};
ghost use Rattle.pat_reduce.specs.threads.Views.{program_view};
ghost use Rattle.pat_reduce.specs.threads.ThreadViews.{thread_view};
ghost use Rattle.pat_machine_spec.specs.Commits.{IsLocalRun, locally};
ghost use Rattle.pat_machine_threads.specs.Handed.{hands_back};
ghost use Rattle.pat_machine_threads.specs.Settling.{Advances};

use crate::copies::copy_state;
use crate::error::LocalError;
use pat_reduce::{Control, Core, StepError, ThreadState, core_of};
use pat_reduce_values::{Executable, enter_body, value_for};
use std::alloc::{AllocError, Global};

/// For how many times its values, and two more, a thread keeps room where it stops: doubling and a vector's least room stay below.
const MOST_ROOM: usize = 3;

/// The state that local steps began with, what they made of it, and how many they were.
#[derive(Drop)]
pub struct LocalRun {
    pub start: ThreadState,
    pub end: ThreadState,
    pub steps: u32,
}

/// As many local steps as there are within the allowance, on a copy of the state.
pub fn local_run(
    alloc: Global,
    code: &Executable,
    state: ThreadState,
    allowance: u32,
) -> Result<LocalRun, LocalError>
    ensures start { IfOk result (λ r. r.start ≡ state) }
    ensures run { IfOk result (λ r. IsLocalRun (program_view code.now.program) allowance (thread_view r.start) r.steps (thread_view r.end)) }
    ensures err { IfErr result (hands_back state) }
{
    let Ok(mut end) = copy_state(alloc, &state) else {
        return Err(LocalError::NoMemory(state));
    };
    match run_locally(alloc, code, &mut end, allowance) {
        Ok(steps) => {
            give_back_room(&mut end);
            let start = state;
            Ok(LocalRun { start, end, steps })
        }
        Err(_) => Err(LocalError::NoMemory(state)),
    }
}

/// Gives back most of the room that lets took: a thread may wait for long where its local steps end. Without memory for that it keeps its room.
pub fn give_back_room(state: &mut ThreadState)
    ensures { thread_view state.new ≡ thread_view state.old }
{
    if let Control::Node { env, .. } = &mut state.control {
        if env.items.capacity() / MOST_ROOM > env.items.len() {
            env.items.shrink_to_fit();
        }
    }
}

/// As many local steps as there are within the allowance, in place; and how many they were.
pub fn run_locally(
    alloc: Global,
    code: &Executable,
    state: &mut ThreadState,
    allowance: u32,
) -> Result<u32, AllocError>
    ensures { IfOk result (λ n. IsLocalRun (program_view code.now.program) allowance (thread_view state.old) n (thread_view state.new)) }
{
    let mut steps = 0;
    while steps < allowance {
        let more = advance(alloc, code, state, allowance - steps)?;
        if more == 0 {
            return Ok(steps);
        }
        steps += more;
    }
    Ok(steps)
}

// A local step, or the two of a `let` of a value where both are allowed; none only where there is none.
#[inline(always)]
fn advance(
    alloc: Global,
    code: &Executable,
    state: &mut ThreadState,
    allowance: u32,
) -> Result<u32, AllocError>
    requires { 0 < allowance }
    ensures { IfOk result (λ n. Advances (program_view code.now.program) allowance (thread_view state.old) n (thread_view state.new)) }
{
    let is_let = match &state.control {
        Control::Node { node, .. } => matches!(core_of(code, *node), Some(Core::Let { .. })),
        Control::Returned(_) => false,
    };
    if is_let && allowance > 1 {
        let is_bound = bind_value(alloc, code, state)?;
        if is_bound {
            return Ok(2);
        }
    }
    match state.step_locally(alloc, code) {
        Ok(()) => Ok(1),
        Err(StepError::Disabled) => Ok(0),
        Err(StepError::NoMemory) => Err(AllocError),
    }
}

// Whether a `let` of an expression that has a value stands there, whose two steps are then taken, with no frame between them.
fn bind_value(alloc: Global, code: &Executable, state: &mut ThreadState) -> Result<bool, AllocError>
    ensures yes { IfOk result (λ b. IsTrue b → locally (program_view code.now.program) 2 (thread_view state.old) ≡ Some (thread_view state.new)) }
    ensures no { IfOk result (λ b. IsFalse b → thread_view state.new ≡ thread_view state.old) }
{
    let Control::Node { node, env } = &mut state.control else {
        return Ok(false);
    };
    let Some(Core::Let { var, bound, body }) = core_of(code, *node) else {
        return Ok(false);
    };
    let Some(Core::Value(e)) = core_of(code, *bound) else {
        return Ok(false);
    };
    match value_for(alloc, e, env.as_slice()) {
        Ok(value) => {
            enter_body(code, *body, *var, value, env)?;
            *node = *body;
            Ok(true)
        }
        Err(StepError::Disabled) => Ok(false),
        Err(StepError::NoMemory) => Err(AllocError),
    }
}
