// What a thread does next: its local steps, the line that it prints, and whether it is over.
ghost use Rattle.std.specs.Prelude.{◌≡◌, map, option_map, IfOk};
ghost use Rattle.pat_semantics_spec.specs.Values.{eval, eval_all, line_of};
ghost use Rattle.pat_semantics_spec.specs.Programs.{function_at};
ghost use Rattle.pat_semantics_spec.specs.Steps.{local_step, numbered, redex, frame_of, at_node};
ghost use Rattle.pat_core.specs.Views.{expr_view, program_view};
ghost use Rattle.pat_reduce_values.specs.ValueViews.{value_view, reference_view, env_view};
ghost use Rattle.pat_reduce.specs.threads.ThreadViews.{control_view, frame_view, thread_view};
ghost use Rattle.pat_reduce.specs.threads.ThreadActs.{resumed, entered, branch, redex_line, is_over_at};
ghost use Rattle.pat_reduce_values.specs.Results.{Gives, StepGives};

use crate::threads::nodes::{core_of, function_of, move_to, node_of};
use crate::threads::{Control, Frame, ThreadState};
use itoa::Buffer;
use pat_core::{Core, Expr, Function};
use pat_reduce_values::{
    Executable, StepError, Value, ValueRef, bound, evaluate, kept_but, parameters, value_for,
};
use pat_sequences::Text;
use std::alloc::{AllocError, Global};

impl ThreadState {
    /// Takes the next local step. An `Err` changes nothing.
    pub fn step_locally(&mut self, alloc: Global, code: &Executable) -> Result<(), StepError>
        ensures { StepGives thread_view (local_step (program_view code.now.program) (thread_view self.old)) self.old self.new result }
    {
        match &self.control {
            Control::Returned(value) => {
                let value = value.copy(alloc)?;
                resume(alloc, code, self, value)
            }
            Control::Node { node, env } => match core_of(code, *node) {
                Some(Core::Value(e)) => match value_for(alloc, e, env.as_slice()) {
                    Ok(value) => resume(alloc, code, self, value),
                    Err(error) => Err(error),
                },
                Some(Core::Let { var, bound, body }) => {
                    let frame = waiting(alloc, code, *var, *body, env.as_slice())?;
                    self.frames.push(frame)?;
                    move_to(code, *bound, &mut self.control);
                    Ok(())
                }
                Some(Core::Call { function, args }) => {
                    match enter(alloc, code, *function, args.as_slice(), env.as_slice()) {
                        Ok(control) => {
                            self.control = control;
                            Ok(())
                        }
                        Err(error) => Err(error),
                    }
                }
                Some(Core::If { test, yes, no }) => match branch(test, *yes, *no, env.as_slice()) {
                    Some(next) => {
                        move_to(code, next, &mut self.control);
                        Ok(())
                    }
                    None => Err(StepError::Disabled),
                },
                _ => Err(StepError::Disabled),
            },
        }
    }
}

// The frame on top goes on with a value.
fn resume(
    alloc: Global,
    code: &Executable,
    state: &mut ThreadState,
    value: Value,
) -> Result<(), StepError>
    ensures { StepGives thread_view (resumed (program_view code.now.program) (map frame_view state.old.frames)
        (value_view value)) state.old state.new result }
{
    let control = match state.frames.top() {
        Some(frame) => {
            let env = bound(alloc, frame.env.as_slice(), frame.var, value)?;
            node_of(code, frame.body, env)
        }
        None => return Err(StepError::Disabled),
    };
    let _ = state.frames.pop();
    state.control = control;
    Ok(())
}

// The frame that waits for the name of a `let`.
fn waiting(
    alloc: Global,
    code: &Executable,
    var: Option<u32>,
    body: u32,
    env: &[(u32, Value)],
) -> Result<Frame, AllocError>
    ensures { IfOk result (λ f. frame_view f ≡ frame_of (program_view code.now.program) var body (env_view env.now)) }
{
    let env = kept_but(alloc, code, body, var, env)?;
    Ok(Frame { var, body, env })
}

/// The control that a call goes on with.
#[inline(always)]
pub fn enter(
    alloc: Global,
    code: &Executable,
    function: u32,
    args: &[Expr],
    env: &[(u32, Value)],
) -> Result<Control, StepError>
    ensures { Gives control_view
        (entered (program_view code.now.program) (function_at (program_view code.now.program) function)
        (option_map (numbered 0) (eval_all (env_view env.now) (map expr_view args.now)))) result }
{
    match function_of(code, function) {
        Some(entry) => node_with_parameters(alloc, code, entry.body, args, env),
        None => Err(StepError::Disabled),
    }
}

// The node with its part of the values of the arguments.
#[inline(always)]
fn node_with_parameters(
    alloc: Global,
    code: &Executable,
    node: u32,
    args: &[Expr],
    env: &[(u32, Value)],
) -> Result<Control, StepError>
    ensures { Gives control_view (option_map (at_node (program_view code.now.program) node)
        (option_map (numbered 0) (eval_all (env_view env.now) (map expr_view args.now)))) result }
{
    match parameters(alloc, args, env) {
        Ok(own) => Ok(node_of(code, node, own)),
        Err(error) => Err(error),
    }
}

// The node that a choice goes on with.
fn branch(test: &Expr, yes: u32, no: u32, env: &[(u32, Value)]) -> Option<u32>
    ensures { result ≡ branch (eval (env_view env.now) (expr_view test.now)) yes no }
{
    match evaluate(test, env) {
        Some(ValueRef::Bool(b)) => Some(if b { yes } else { no }),
        _ => None,
    }
}

/// The line that a thread prints next.
pub fn next_line(alloc: Global, code: &Executable, control: &Control) -> Result<Text, StepError>
    ensures { Gives (λ line. line) (redex_line (redex (program_view code.now.program) (control_view control.now))) result }
{
    match control {
        Control::Node { node, env } => match core_of(code, *node) {
            Some(Core::Print(e)) => match evaluate(e, env.as_slice()) {
                Some(value) => line_for(alloc, value),
                None => Err(StepError::Disabled),
            },
            _ => Err(StepError::Disabled),
        },
        Control::Returned(_) => Err(StepError::Disabled),
    }
}

// The line that prints a value.
fn line_for(alloc: Global, value: ValueRef<'_>) -> Result<Text, StepError>
    ensures { Gives (λ line. line) (line_of (reference_view value.entry)) result }
{
    match value {
        ValueRef::Int(n) => {
            let mut digits = Buffer::new();
            Ok(Text::from_slice(alloc, digits.format(n).as_bytes())?)
        }
        ValueRef::Bool(true) => Ok(Text::from_slice(alloc, b"true")?),
        ValueRef::Bool(false) => Ok(Text::from_slice(alloc, b"false")?),
        ValueRef::Str(text) => Ok(text.copy(alloc)?),
        ValueRef::Unit | ValueRef::Mailbox(_) => Err(StepError::Disabled),
    }
}

/// Whether a thread has a value or an expression, and no frame.
pub fn is_over(code: &Executable, state: &ThreadState) -> bool
    ensures { result ≡ is_over_at (redex (program_view code.now.program) (control_view state.now.control))
        (map frame_view state.now.frames) }
{
    if !state.frames.is_empty() {
        return false;
    }
    match &state.control {
        Control::Returned(_) => true,
        Control::Node { node, .. } => matches!(core_of(code, *node), Some(Core::Value(_))),
    }
}
