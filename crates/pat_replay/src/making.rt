// The mailboxes that a history makes.
ghost use Rattle.std.specs.Prelude.{◌≡◌, ◌++◌, OnOk};
ghost use Rattle.pat_semantics_spec.specs.Programs.{option_list};
ghost use Rattle.pat_semantics_spec.specs.Configs.{thread_at};
ghost use Rattle.pat_semantics_spec.specs.Orders.{IsOrdered};
ghost use Rattle.pat_semantics_spec.specs.Steps.{ActNew, redex};
ghost use Rattle.pat_core.specs.Views.{program_view};
ghost use Rattle.pat_type_system_spec.specs.Interfaces.{made_by, new_interface};
ghost use Rattle.pat_reduce.specs.Views.{act_view};
ghost use Rattle.pat_reduce.specs.threads.ThreadViews.{control_view};
ghost use Rattle.pat_replay.specs.Kept.{kept_view};

use crate::kept::Kept;
use pat_reduce::{Act, Config, Control, Core, Step, core_of};
use pat_reduce_values::Executable;
use pat_sequences::Sequence;
use std::alloc::AllocError;

/// The configuration that a history leads to, and the interfaces of the mailboxes that it makes, in the order in which they are made.
#[derive(Drop)]
pub struct Reached {
    pub config: Config,
    pub made: Sequence<u32>,
}

/// The interface of the mailbox that the step makes from this configuration, if it makes one, goes behind the others.
pub fn note_made(
    code: &Executable,
    kept: &Kept,
    made: &mut Sequence<u32>,
    step: &Step,
) -> Result<(), AllocError>
    requires { IsOrdered (kept_view kept.now) }
    ensures { OnOk result (made.new ≡ made.old ++ option_list (made_by (program_view code.now.program) (act_view step.now.act)
        (thread_at (kept_view kept.now) step.now.thread))) }
{
    match step.act {
        Act::New => note_new(made, new_by(code, kept, step.thread)),
        _ => Ok(()),
    }
}

fn note_new(made: &mut Sequence<u32>, interface: Option<u32>) -> Result<(), AllocError>
    ensures { OnOk result (made.new ≡ made.old ++ option_list interface) }
{
    match interface {
        Some(interface) => made.push(interface),
        None => Ok(()),
    }
}

// The interface of the mailbox that the thread makes, if that is what it stands at.
fn new_by(code: &Executable, kept: &Kept, thread: u32) -> Option<u32>
    requires { IsOrdered (kept_view kept.now) }
    ensures { result ≡ made_by (program_view code.now.program) ActNew (thread_at (kept_view kept.now) thread) }
{
    match kept.thread(thread) {
        Some(state) => new_interface(code, &state.control),
        None => None,
    }
}

// The interface of the mailbox that is made here, if one is.
fn new_interface(code: &Executable, control: &Control) -> Option<u32>
    ensures { result ≡ new_interface (redex (program_view code.now.program) (control_view control.now)) }
{
    match control {
        Control::Node { node, .. } => match core_of(code, *node) {
            Some(Core::New(interface)) => Some(*interface),
            _ => None,
        },
        Control::Returned(_) => None,
    }
}
