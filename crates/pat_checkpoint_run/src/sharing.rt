// The shared step of a turn.
ghost use Rattle.std.specs.Prelude.{◌≡◌, ◌++◌, List, Some, IfOk, OnOk, option_map};
ghost use Rattle.pat_semantics_spec.specs.Programs.{option_list};
ghost use Rattle.pat_semantics_spec.specs.Configs.{Frame as FrameOf};
ghost use Rattle.pat_semantics_spec.specs.Steps.{redex, thread_of};
ghost use Rattle.pat_core.specs.Views.{program_view};
ghost use Rattle.pat_type_system_spec.specs.Interfaces.{made_by, new_interface};
ghost use Rattle.pat_reduce.specs.Places.{IsPlace};
ghost use Rattle.pat_reduce.specs.Views.{act_view, config_view};
ghost use Rattle.pat_reduce.specs.threads.ThreadViews.{control_view};
ghost use Rattle.pat_checkpoint_run.specs.Courses.{HasRoom, Shares};

use crate::next::Turn;
use pat_checkpoint_laws::turn_laws;
use pat_reduce::{Act, Config, Control, Core, Step, core_of};
use pat_reduce_values::Executable;
use pat_sequences::Sequence;
use std::alloc::{AllocError, Global};

/// Takes the enabled shared step of the thread, if one is, and notes the interface of the mailbox that it makes, if it makes one.
pub fn share(
    alloc: Global,
    code: &Executable,
    config: &mut Config,
    made: &mut Sequence<u32>,
    turn: Turn,
) -> Result<Option<Act>, AllocError>
    requires room { HasRoom (config_view config.old) 1 }
    requires place { IsPlace config.old.threads turn.thread turn.place }
    ensures { IfOk result (λ a. Shares (program_view code.now.program) turn.thread (config_view config.old) made.old (option_map act_view a)
        (config_view config.new) made.new) }
{
    // A law: an act that is found enabled is the first one.
    turn_laws();
    let Some(act) = config.act_at_place(code, turn.thread, turn.place) else {
        return Ok(None);
    };
    let control = &config.threads.items[turn.place].1.control;
    note_made(made, made_by(code, act, control))?;
    let step = Step {
        thread: turn.thread,
        act,
    };
    match config.step_at_place(alloc, code, &step, turn.place) {
        Ok(()) => Ok(Some(act)),
        // The act is enabled, so memory ran out.
        Err(_) => Err(AllocError),
    }
}

// The interfaces go on by that of a mailbox that is made, if one is.
fn note_made(made: &mut Sequence<u32>, interface: Option<u32>) -> Result<(), AllocError>
    ensures { OnOk result (made.new ≡ made.old ++ option_list interface) }
{
    match interface {
        Some(interface) => made.push(interface),
        None => Ok(()),
    }
}

// The interface of the mailbox that the act makes, if it makes one.
fn made_by(code: &Executable, act: Act, control: &Control) -> Option<u32>
    ensures { (frames : List FrameOf) → result
        ≡ made_by (program_view code.now.program) (act_view act) (Some (thread_of (control_view control.now) frames)) }
{
    match act {
        Act::New => new_interface(code, control),
        _ => None,
    }
}

// The interface of the mailbox that is made here, if one is.
fn new_interface(code: &Executable, control: &Control) -> Option<u32>
    ensures { result ≡ new_interface (redex (program_view code.now.program) (control_view control.now)) }
{
    match control {
        Control::Node { node, .. } => match core_of(code, *node) {
            Some(Core::New(interface)) => Some(*interface),
            _ => None,
        },
        Control::Returned(_) => None,
    }
}
