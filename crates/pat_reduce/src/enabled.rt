// Which act of a thread is enabled.
ghost use Rattle.std.specs.Prelude.{◌≡◌, map, option_map, option_and_then, is_some, IfSome, IfNone, IsTrue, IsFalse};
ghost use Rattle.pat_semantics_spec.specs.Values.{line_of};
ghost use Rattle.pat_semantics_spec.specs.Steps.{redex};
ghost use Rattle.pat_semantics_spec.specs.Orders.{IsOrdered};
ghost use Rattle.pat_semantics_spec.specs.Runs.{can_step, can_step_thread};
ghost use Rattle.pat_reduce.specs.threads.Views.{core_view, program_view};
ghost use Rattle.pat_reduce.specs.Views.{act_view, config_view};
ghost use Rattle.pat_reduce.specs.threads.ThreadViews.{control_view, frame_view};
ghost use Rattle.pat_reduce_values.specs.ValueViews.{env_view, reference_view};
ghost use Rattle.pat_reduce.specs.threads.GuardViews.{guard_view};
ghost use Rattle.pat_reduce.specs.Acts.{act_if, is_truth, is_mailbox_value, term_act, plain_act, free_act, guard_act, act_at, EnabledAct, IsFirst, IsLeast, IsLeastReady};
ghost use Rattle.pat_reduce.specs.threads.ThreadActs.{guard_at};
ghost use Rattle.pat_reduce.specs.Places.{IsPlace};

use crate::steps::{place_of, state_at};
use crate::threads::{
    Control, GuardRef, ThreadState, core_of, first_message, function_of, guard_of,
};
use crate::{Act, Config};
use pat_core::Core;
use pat_reduce_values::{Executable, Value, ValueRef, evaluate, have_values, value_of};

impl Config {
    /// The act of the thread that is enabled, if one is. A guard receives the first message that it takes, which has the
    /// least number of those that it takes where the configuration is in order.
    pub fn enabled_act(&self, code: &Executable, thread: u32) -> Option<Act>
        ensures enabled { EnabledAct (program_view code.now.program) (config_view self.now) thread (option_map act_view result) }
        ensures first { IsFirst (program_view code.now.program) (config_view self.now) thread (option_map act_view result) }
        ensures least { IsOrdered (config_view self.now)
            → IsLeast (program_view code.now.program) (config_view self.now) thread (option_map act_view result) }
    {
        match place_of(self.threads.as_slice(), thread) {
            Some(place) => self.act_at_place(code, thread, place),
            None => None,
        }
    }

    /// The least act that is enabled for the thread at this place, if there is one: no thread is searched for.
    pub fn act_at_place(&self, code: &Executable, thread: u32, place: usize) -> Option<Act>
        requires { IsPlace self.now.threads thread place }
        ensures enabled { EnabledAct (program_view code.now.program) (config_view self.now) thread (option_map act_view result) }
        ensures first { IsFirst (program_view code.now.program) (config_view self.now) thread (option_map act_view result) }
        ensures least { IsOrdered (config_view self.now)
            → IsLeast (program_view code.now.program) (config_view self.now) thread (option_map act_view result) }
    {
        let state = state_at(self.threads.as_slice(), thread, place);
        self.act_of(code, thread, state)
    }

    /// The first thread that has an enabled step, if one has: the one of the least number where the configuration is in order.
    pub fn ready_thread(&self, code: &Executable) -> Option<u32>
        ensures some { IfSome result (λ t. IsTrue (can_step_thread (program_view code.now.program) (config_view self.now) t)) }
        ensures least { IfSome result (λ t. IsOrdered (config_view self.now)
            → IsLeastReady (program_view code.now.program) (config_view self.now) t) }
        ensures step { IfSome result (λ t. IsTrue (can_step (program_view code.now.program) (config_view self.now))) }
        ensures none { IfNone result (IsFalse (can_step (program_view code.now.program) (config_view self.now))) }
    {
        for entry in self.threads.as_slice() {
            if self.enabled_act(code, entry.0).is_some() {
                return Some(entry.0);
            }
        }
        None
    }

    fn act_of(&self, code: &Executable, thread: u32, state: &ThreadState) -> Option<Act>
        ensures { option_map act_view result ≡ act_at (config_view self.now) thread
            (guard_at (redex (program_view code.now.program) (control_view state.now.control)))
            (plain_act (program_view code.now.program) (redex (program_view code.now.program) (control_view state.now.control))
            (map frame_view state.now.frames)) }
    {
        match guard_of(code, &state.control) {
            Some(guard) => self.guard_act(&guard, thread),
            None => plain_act(code, state),
        }
    }

    fn guard_act(&self, guard: &GuardRef<'_>, thread: u32) -> Option<Act>
        ensures { option_map act_view result ≡ guard_act (config_view self.now) thread (guard_view guard.now) }
    {
        match first_message(guard, self.messages.as_slice()) {
            Some(number) => Some(Act::Receive(number)),
            None => self.free_act(guard, thread),
        }
    }

    fn free_act(&self, guard: &GuardRef<'_>, thread: u32) -> Option<Act>
        ensures { option_map act_view result ≡ free_act (config_view self.now) thread (guard_view guard.now) guard.now.free }
    {
        match guard.free {
            Some(_) => act_if(self.may_free(thread, guard.mailbox), Act::Free),
            None => None,
        }
    }
}

/// The act of a thread that stands at no guard, where it is enabled.
pub fn plain_act(code: &Executable, state: &ThreadState) -> Option<Act>
    ensures { option_map act_view result
        ≡ plain_act (program_view code.now.program) (redex (program_view code.now.program) (control_view state.now.control))
        (map frame_view state.now.frames) }
{
    let is_last = state.frames.is_empty();
    match &state.control {
        Control::Returned(_) => Some(if is_last { Act::End } else { Act::Local }),
        Control::Node { node, env } => match core_of(code, *node)? {
            Core::Value(_) if is_last => Some(Act::End),
            core => term_act(code, core, env.as_slice()),
        },
    }
}

// The act of a term that is no guard and no last value, where it is enabled.
fn term_act(code: &Executable, core: &Core, env: &[(u32, Value)]) -> Option<Act>
    ensures { option_map act_view result ≡ term_act (program_view code.now.program) (core_view core.now) (env_view env.now) }
{
    match core {
        Core::Let { .. } => Some(Act::Local),
        Core::Value(e) => act_if(evaluate(e, env).is_some(), Act::Local),
        Core::Call { function, args } => act_if(
            function_of(code, *function).is_some() && have_values(args.as_slice(), env),
            Act::Local,
        ),
        Core::If { test, .. } => act_if(is_truth(evaluate(test, env)), Act::Local),
        Core::Print(e) => act_if(is_printable(evaluate(e, env)), Act::Print),
        Core::New(_) => Some(Act::New),
        Core::Send { target, args, .. } => act_if(
            is_mailbox(value_of(env, *target)) && have_values(args.as_slice(), env),
            Act::Send,
        ),
        Core::Spawn(_) => Some(Act::Spawn),
        Core::Guard { .. } => None,
    }
}

fn act_if(holds: bool, act: Act) -> Option<Act>
    ensures { option_map act_view result ≡ act_if holds (act_view act) }
{
    if holds { Some(act) } else { None }
}

fn is_truth(value: Option<ValueRef<'_>>) -> bool
    ensures { result ≡ is_truth (option_map reference_view value.entry) }
{
    matches!(value, Some(ValueRef::Bool(_)))
}

fn is_mailbox(value: Option<ValueRef<'_>>) -> bool
    ensures { result ≡ is_mailbox_value (option_map reference_view value.entry) }
{
    matches!(value, Some(ValueRef::Mailbox(_)))
}

fn is_printable(value: Option<ValueRef<'_>>) -> bool
    ensures { result ≡ is_some (option_and_then line_of (option_map reference_view value.entry)) }
{
    match value {
        Some(ValueRef::Int(_) | ValueRef::Bool(_) | ValueRef::Str(_)) => true,
        Some(ValueRef::Unit | ValueRef::Mailbox(_)) => false,
        None => false,
    }
}
