// The messages that guards take.
ghost use Rattle.std.specs.Prelude.{◌≡◌, ℕ, false, map, Some, None, Err, option_map, find, nat_eq, IfOk, IfSome, IfNone};
ghost use Rattle.pat_reduce.specs.declared.threads.state.Message.{Message as Tested};
ghost use Rattle.pat_semantics_spec.specs.Steps.{redex};
ghost use Rattle.pat_core.specs.Views.{clause_view, program_view};
ghost use Rattle.pat_machine_laws.specs.mailbox_index.Pending.{messages_of, AreKept};
ghost use Rattle.pat_reduce_values.specs.declared.error.StepError.TheVariants.{Disabled};
ghost use Rattle.pat_reduce_values.specs.Results.{Gives};
ghost use Rattle.pat_reduce.specs.threads.ThreadViews.{control_view, message_view};
ghost use Rattle.pat_reduce.specs.threads.GuardViews.{guard_view};
ghost use Rattle.pat_reduce.specs.threads.ThreadActs.{first_taken, redex_received, takes};
ghost use Rattle.pat_mailboxes.specs.Mailboxes.{IsLive, pending_at as pending_of};
ghost use Rattle.pat_mailboxes.specs.queues.Lanes.{IsMessageAt, lane_of};
ghost use Rattle.pat_machine_indexes.specs.messages.Boxes.{boxes_view};
ghost use Rattle.pat_machine_indexes.specs.messages.Deliveries.{IsDelivery, IsNumbered, has_lane};

use pat_core::Clause;
use pat_mailboxes::{Mailboxes, Numbered, Test, lane_of};
use pat_reduce::{Control, GuardRef, Message, StepError, go_on_with, guard_of, takes};
use pat_reduce_values::Executable;
use std::alloc::Global;

/// The guard that messages are looked for by.
#[derive(Clone, Copy, Drop)]
pub struct Taken<'a> {
    pub guard: GuardRef<'a>,
}

impl<'a> Test for Taken<'a> {
    ghost passes = { λ t m. takes (guard_view t.guard) (message_view m) };

    fn passes(&self, message: &Message) -> bool {
        takes(&self.guard, message)
    }

    fn may_pass(&self, lane: u32) -> bool {
        may_take(&self.guard, lane)
    }
}

// Whether the guard may take messages of a lane.
fn may_take(guard: &GuardRef<'_>, lane: u32) -> bool
    ensures { result ≡ false → (m : Tested) → lane_of m.tag ≡ lane → takes (guard_view guard.now) (message_view m) ≡ false }
{
    has_lane(guard.receives, lane)
}

// Whether a clause receives messages of a lane.
fn has_lane(clauses: &[Clause], lane: u32) -> bool
    ensures { result ≡ has_lane lane (map clause_view clauses.now) }
{
    for clause in clauses {
        if is_in_lane(clause.tag, lane) {
            return true;
        }
    }
    false
}

fn is_in_lane(tag: u8, lane: u32) -> bool
    ensures { result ≡ nat_eq (lane_of tag) lane }
{
    lane_of(tag) == lane
}

/// The number of the first message that the guard takes.
pub fn first_message(mailboxes: &Mailboxes, guard: &GuardRef<'_>) -> Option<u32>
    requires { AreKept (boxes_view mailboxes.now.mailboxes) }
    ensures { result ≡ option_map (λ m. m.number) (first_taken (guard_view guard.now) (messages_of (boxes_view mailboxes.now.mailboxes))) }
{
    if !mailboxes.is_live(guard.mailbox) {
        return None;
    }
    match mailboxes.find(guard.mailbox, &Taken { guard: *guard }) {
        Some(message) => Some(message.number),
        None => None,
    }
}

/// The mailbox and the tag of the message of a number that a thread receives, and the control that goes on with it.
pub fn delivery(
    alloc: Global,
    code: &Executable,
    mailboxes: &Mailboxes,
    control: &Control,
    number: u32,
) -> Result<(u32, u8, Control), StepError>
    requires { AreKept (boxes_view mailboxes.now.mailboxes) }
    ensures ok { IfOk result (λ d. (place : ℕ) × IsDelivery (program_view code.now.program) (boxes_view mailboxes.now.mailboxes)
        (redex (program_view code.now.program) (control_view control.now)) number d.0 place (control_view d.2)
        × IsMessageAt d.1 number (pending_of mailboxes.now.mailboxes d.0) place) }
    ensures disabled { result ≡ Err Disabled
        → redex_received (program_view code.now.program) (messages_of (boxes_view mailboxes.now.mailboxes)) number
        (redex (program_view code.now.program) (control_view control.now)) ≡ None }
{
    match guard_of(code, control) {
        Some(guard) => match find_numbered(mailboxes, &guard, number) {
            Some(message) => match go_on_with(alloc, code, &guard, message) {
                Ok(control) => Ok((guard.mailbox, message.tag, control)),
                Err(error) => Err(error),
            },
            None => Err(StepError::Disabled),
        },
        None => Err(StepError::Disabled),
    }
}

// The message of a number that is pending at a guard's mailbox. Mostly it is the first that the guard takes, so that no walk leads to it.
fn find_numbered<'a>(
    mailboxes: &'a Mailboxes,
    guard: &GuardRef<'_>,
    number: u32,
) -> Option<&'a Message>
    ensures there { IfSome result (IsNumbered (pending_of mailboxes.now.mailboxes guard.now.mailbox) number) }
    ensures none { IfNone result (find (λ m. nat_eq number m.number) (pending_of mailboxes.now.mailboxes guard.now.mailbox) ≡ None) }
{
    if !mailboxes.is_live(guard.mailbox) {
        return None;
    }
    match first_numbered(mailboxes, guard, number) {
        Some(message) => Some(message),
        None => mailboxes.find(guard.mailbox, &Numbered { number }),
    }
}

// The first message that the guard takes, where it has the number.
fn first_numbered<'a>(
    mailboxes: &'a Mailboxes,
    guard: &GuardRef<'_>,
    number: u32,
) -> Option<&'a Message>
    requires { IsLive mailboxes.now.mailboxes guard.now.mailbox }
    ensures { IfSome result (IsNumbered (pending_of mailboxes.now.mailboxes guard.now.mailbox) number) }
{
    match mailboxes.find(guard.mailbox, &Taken { guard: *guard }) {
        Some(message) => with_number(message, number),
        None => None,
    }
}

// The message, if it has the number.
fn with_number(message: &Message, number: u32) -> Option<&Message>
    ensures { IfSome result (λ m. (m.now ≡ message.now) × (m.now.number ≡ number)) }
{
    if message.number == number {
        Some(message)
    } else {
        None
    }
}
