// Whether a state is the top of another one.
ghost use Rattle.std.specs.Prelude.{◌≡◌, map, IsTrue, IsFalse};
ghost use Rattle.pat_machine_spec.specs.Tops.{top_of};
ghost use Rattle.pat_machine_threads.specs.Bindings.{binding_view};
ghost use Rattle.pat_reduce.specs.threads.ThreadViews.{control_view, frame_view, thread_view};
ghost use Rattle.pat_reduce_values.specs.ValueViews.{value_view, env_view};

use crate::tops::top_frames;
use pat_reduce::{Control, Frame, ThreadState, Value};

/// Whether a state has the control of the kept one and at most so many of its frames, those on top: yes exactly where it has just these.
pub fn is_top(kept: &ThreadState, start: &ThreadState, most: u32) -> bool
    ensures same { IsTrue result → thread_view start.now ≡ top_of most (thread_view kept.now) }
    ensures other { IsFalse result → thread_view start.now ≡ top_of most (thread_view kept.now) → ⊥ }
{
    is_same_control(&start.control, &kept.control)
        && are_same_frames(start.frames.as_slice(), top_frames(&kept.frames, most))
}

fn is_same_control(first: &Control, second: &Control) -> bool
    ensures same { IsTrue result → control_view first.now ≡ control_view second.now }
    ensures other { IsFalse result → control_view first.now ≡ control_view second.now → ⊥ }
{
    match (first, second) {
        (
            Control::Node { node, env },
            Control::Node {
                node: other,
                env: values,
            },
        ) => node == other && is_same_env(env.as_slice(), values.as_slice()),
        (Control::Returned(value), Control::Returned(other)) => is_same_value(value, other),
        _ => false,
    }
}

fn are_same_frames(first: &[Frame], second: &[Frame]) -> bool
    ensures same { IsTrue result → map frame_view first.now ≡ map frame_view second.now }
    ensures other { IsFalse result → map frame_view first.now ≡ map frame_view second.now → ⊥ }
{
    if first.len() != second.len() {
        return false;
    }
    for i in 0..first.len() {
        if !is_same_frame(&first[i], &second[i]) {
            return false;
        }
    }
    true
}

fn is_same_frame(first: &Frame, second: &Frame) -> bool
    ensures same { IsTrue result → frame_view first.now ≡ frame_view second.now }
    ensures other { IsFalse result → frame_view first.now ≡ frame_view second.now → ⊥ }
{
    first.var == second.var
        && first.body == second.body
        && is_same_env(first.env.as_slice(), second.env.as_slice())
}

fn is_same_env(first: &[(u32, Value)], second: &[(u32, Value)]) -> bool
    ensures same { IsTrue result → env_view first.now ≡ env_view second.now }
    ensures other { IsFalse result → env_view first.now ≡ env_view second.now → ⊥ }
{
    if first.len() != second.len() {
        return false;
    }
    for i in 0..first.len() {
        if !is_same_binding(&first[i], &second[i]) {
            return false;
        }
    }
    true
}

fn is_same_binding(first: &(u32, Value), second: &(u32, Value)) -> bool
    ensures same { IsTrue result → binding_view first.now ≡ binding_view second.now }
    ensures other { IsFalse result → binding_view first.now ≡ binding_view second.now → ⊥ }
{
    first.0 == second.0 && is_same_value(&first.1, &second.1)
}

fn is_same_value(first: &Value, second: &Value) -> bool
    ensures same { IsTrue result → value_view first.now ≡ value_view second.now }
    ensures other { IsFalse result → value_view first.now ≡ value_view second.now → ⊥ }
{
    match (first, second) {
        (Value::Unit, Value::Unit) => true,
        (Value::Bool(b), Value::Bool(c)) => b == c,
        (Value::Int(m), Value::Int(n)) => m == n,
        (Value::Str(s), Value::Str(t)) => s.is_same(t),
        (Value::Mailbox(a), Value::Mailbox(b)) => a == b,
        _ => false,
    }
}
