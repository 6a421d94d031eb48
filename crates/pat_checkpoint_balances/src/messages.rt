// Whether messages are as their tags are declared.
ghost use Rattle.std.specs.Prelude.{◌≡◌, map, IsTrue};
ghost use Rattle.pat_semantics_spec.specs.Programs.{kind_of};
ghost use Rattle.pat_core.specs.Views.{sort_view, program_view};
ghost use Rattle.pat_reduce_values.specs.ValueViews.{value_view};
ghost use Rattle.pat_reduce.specs.threads.ThreadViews.{message_view};
ghost use Rattle.pat_reduce.specs.Views.{config_view};
ghost use Rattle.pat_checkpoint_spec.specs.Checkpoints.{interface_at};
ghost use Rattle.pat_checkpoint_spec.specs.Kinds.{value_fits as value_fits_kind};
ghost use Rattle.pat_checkpoint_spec.specs.Mailboxes.{values_fit as values_fit_kinds, message_fits as message_fits_declared, messages_hold as messages_hold_of};
ghost use Rattle.pat_checkpoint_spec.specs.Numbers.{ascends, numbers_hold};
ghost use Rattle.pat_checkpoint_data.specs.Views.{checkpoint_view};

use crate::places::interface_of;
use pat_checkpoint_data::Checkpoint;
use pat_core::{Program, Sort};
use pat_obligations::tag_of;
use pat_primitives::Base;
use pat_reduce::{Message, Value};

/// Whether each message's tag is of its mailbox's interface, and its values are as declared.
pub fn messages_hold(program: &Program, checkpoint: &Checkpoint) -> bool
    requires { IsTrue (numbers_hold (config_view checkpoint.now.config)) }
    ensures { result ≡ messages_hold_of (program_view program.now) (checkpoint_view checkpoint.now) }
{
    let live = checkpoint.config.live.as_slice();
    let interfaces = checkpoint.interfaces.as_slice();
    for message in checkpoint.config.messages.as_slice() {
        if !message_fits(program, live, interfaces, message) {
            return false;
        }
    }
    true
}

fn message_fits(program: &Program, live: &[u32], interfaces: &[u32], message: &Message) -> bool
    requires { IsTrue (ascends 0 live.now) }
    ensures { result ≡ message_fits_declared (program_view program.now) (interface_at live.now interfaces.now) (message_view message.now) }
{
    let interface = interface_of(live, interfaces, message.mailbox);
    match tag_of(program, interface, message.tag) {
        None => false,
        Some(declared) => {
            let payloads = declared.payloads.as_slice();
            values_fit(live, interfaces, message.values.as_slice(), payloads)
        }
    }
}

fn values_fit(live: &[u32], interfaces: &[u32], values: &[Value], payloads: &[Sort]) -> bool
    requires { IsTrue (ascends 0 live.now) }
    ensures { result ≡ values_fit_kinds (interface_at live.now interfaces.now) (map value_view values.now)
        (map kind_of (map sort_view payloads.now)) }
{
    if values.len() != payloads.len() {
        return false;
    }
    for place in 0..values.len() {
        if !value_fits(live, interfaces, &values[place], &payloads[place]) {
            return false;
        }
    }
    true
}

fn value_fits(live: &[u32], interfaces: &[u32], value: &Value, payload: &Sort) -> bool
    requires { IsTrue (ascends 0 live.now) }
    ensures { result ≡ value_fits_kind (interface_at live.now interfaces.now) (value_view value.now) (kind_of (sort_view payload.now)) }
{
    match (value, payload) {
        (Value::Unit, Sort::Base(Base::Unit)) => true,
        (Value::Bool(_), Sort::Base(Base::Bool)) => true,
        (Value::Int(_), Sort::Base(Base::Int)) => true,
        (Value::Str(_), Sort::Base(Base::Str)) => true,
        (Value::Mailbox(mailbox), Sort::Mailbox(of)) => {
            interface_of(live, interfaces, *mailbox) == of.interface
        }
        _ => false,
    }
}
