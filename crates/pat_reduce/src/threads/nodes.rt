// The nodes and functions of a program.
ghost use Rattle.std.specs.Prelude.{◌≡◌, option_copied, option_map, IfOk};
ghost use Rattle.pat_semantics_spec.specs.Programs.{core_at, function_at};
ghost use Rattle.pat_semantics_spec.specs.Steps.{at_node};
ghost use Rattle.pat_core.specs.Views.{core_view, function_view, program_view};
ghost use Rattle.pat_reduce_values.specs.ValueViews.{env_view};
ghost use Rattle.pat_reduce.specs.threads.ThreadViews.{control_view};
ghost use Rattle.pat_reduce.specs.threads.ThreadActs.{moved_to};

use crate::threads::Control;
use pat_core::{Core, Function};
use pat_reduce_values::{Executable, Value, keep_free, kept};
use pat_sequences::Sequence;
use std::alloc::{AllocError, Global};

/// The term of a node.
pub fn core_of<'a>(code: &'a Executable, node: u32) -> Option<&'a Core>
    ensures { option_map core_view (option_copied result) ≡ core_at (program_view code.now.program) node }
{
    Some(&code.program.nodes.as_slice().get(node as usize)?.core)
}

/// The function of a number.
pub fn function_of<'a>(code: &'a Executable, number: u32) -> Option<&'a Function>
    ensures { option_map function_view (option_copied result) ≡ function_at (program_view code.now.program) number }
{
    code.program.functions.as_slice().get(number as usize)
}

/// The node with its part of the values.
pub fn node_with(
    alloc: Global,
    code: &Executable,
    node: u32,
    env: &[(u32, Value)],
) -> Result<Control, AllocError>
    ensures { IfOk result (λ k. control_view k ≡ at_node (program_view code.now.program) node (env_view env.now)) }
{
    let env = kept(alloc, code, node, env)?;
    Ok(Control::Node { node, env })
}

/// The node with its part of these values. It takes no memory.
pub fn node_of(code: &Executable, node: u32, env: Sequence<(u32, Value)>) -> Control
    ensures { control_view result ≡ at_node (program_view code.now.program) node (env_view env) }
{
    let mut env = env;
    keep_free(code, node, &mut env);
    Control::Node { node, env }
}

/// A control before a node goes to another one, with its part of the values. It takes no memory.
pub fn move_to(code: &Executable, node: u32, control: &mut Control)
    ensures { control_view control.new ≡ moved_to (program_view code.now.program) node (control_view control.old) }
{
    match control {
        Control::Node { node: own, env } => {
            keep_free(code, node, env);
            *own = node;
        }
        Control::Returned(_) => {}
    }
}
