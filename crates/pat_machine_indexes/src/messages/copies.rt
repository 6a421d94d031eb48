// Copies of pending messages, and the live mailboxes, as a list and counted.
ghost use Rattle.std.specs.Prelude.{◌≡◌, [], ◌∷◌, ◌++◌, map, length, take, is_some, if◌then◌else◌, IfOk, OnOk};
ghost use Rattle.pat_reduce.specs.threads.ThreadViews.{message_view};
ghost use Rattle.pat_reduce_values.specs.ValueViews.{value_view};
ghost use Rattle.pat_machine_laws.specs.mailbox_index.Pending.{all_of, live_of, messages_of, AreKept};
ghost use Rattle.pat_mailboxes.specs.Mailboxes.{mailbox_at, pending_at};
ghost use Rattle.pat_machine_indexes.specs.messages.Boxes.{boxes_view};

use pat_mailboxes::Mailboxes;
use pat_reduce::{Message, Value};
use pat_sequences::Sequence;
use std::alloc::{AllocError, Global};

/// Copies of the pending messages, in order of number.
pub fn copy_pending(
    alloc: Global,
    mailboxes: &Mailboxes,
    count: u32,
) -> Result<Sequence<Message>, AllocError>
    requires kept { AreKept (boxes_view mailboxes.now.mailboxes) }
    requires all { count ≡ length mailboxes.now.mailboxes }
    ensures { IfOk result (λ own. map message_view own ≡ messages_of (boxes_view mailboxes.now.mailboxes)) }
{
    let mut own = copy_boxes(alloc, mailboxes, count)?;
    own.items.sort_by_key(|message| message.number)?;
    Ok(own)
}

// The messages of the first mailboxes, those of one behind those of another.
fn copy_boxes(
    alloc: Global,
    mailboxes: &Mailboxes,
    count: u32,
) -> Result<Sequence<Message>, AllocError>
    ensures { IfOk result (λ own. map message_view own ≡ all_of (take count (boxes_view mailboxes.now.mailboxes))) }
{
    let mut own = Sequence::new(alloc);
    for mailbox in 0..count {
        copy_box(alloc, mailboxes, mailbox, &mut own)?;
    }
    Ok(own)
}

// Appends the messages of a mailbox, if it is live.
fn copy_box(
    alloc: Global,
    mailboxes: &Mailboxes,
    mailbox: u32,
    own: &mut Sequence<Message>,
) -> Result<(), AllocError>
    ensures { OnOk result (map message_view own.new ≡ map message_view own.old
        ++ map message_view (pending_at mailboxes.now.mailboxes mailbox)) }
{
    if !mailboxes.is_live(mailbox) {
        return Ok(());
    }
    let pending = mailboxes.list(alloc, mailbox)?;
    for message in pending {
        own.push(copy_message(alloc, message)?)?;
    }
    Ok(())
}

fn copy_message(alloc: Global, message: &Message) -> Result<Message, AllocError>
    ensures { IfOk result (λ m. message_view m ≡ message_view message.now) }
{
    let values = copy_values(alloc, message.values.as_slice())?;
    Ok(Message {
        number: message.number,
        mailbox: message.mailbox,
        tag: message.tag,
        values,
    })
}

fn copy_values(alloc: Global, values: &[Value]) -> Result<Sequence<Value>, AllocError>
    ensures { IfOk result (λ own. map value_view own ≡ map value_view values.now) }
{
    let mut own = Sequence::new(alloc);
    for value in values {
        own.push(value.copy(alloc)?)?;
    }
    Ok(own)
}

/// Which of the first mailboxes are live, in order of number.
pub fn list_live(
    alloc: Global,
    mailboxes: &Mailboxes,
    count: u32,
) -> Result<Sequence<u32>, AllocError>
    requires { count ≡ length mailboxes.now.mailboxes }
    ensures { IfOk result (λ own. own ≡ live_of (boxes_view mailboxes.now.mailboxes)) }
{
    let mut own = Sequence::new(alloc);
    for mailbox in 0..count {
        list_box(mailboxes, mailbox, &mut own)?;
    }
    Ok(own)
}

// Appends the number of a mailbox, if it is live.
fn list_box(mailboxes: &Mailboxes, mailbox: u32, own: &mut Sequence<u32>) -> Result<(), AllocError>
    ensures { OnOk result (own.new ≡ own.old ++ (if is_some (mailbox_at mailboxes.now.mailboxes mailbox) then mailbox ∷ [] else [])) }
{
    if mailboxes.is_live(mailbox) {
        own.push(mailbox)
    } else {
        Ok(())
    }
}

/// How many of the first mailboxes are live.
pub fn count_live(mailboxes: &Mailboxes, count: u32) -> usize
    requires { count ≡ length mailboxes.now.mailboxes }
    ensures { result ≡ length (live_of (boxes_view mailboxes.now.mailboxes)) }
{
    let mut live = 0;
    for mailbox in 0..count {
        if mailboxes.is_live(mailbox) {
            live += 1;
        }
    }
    live
}
