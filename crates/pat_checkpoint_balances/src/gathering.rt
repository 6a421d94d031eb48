// What may come to each live mailbox, and what its receivers expect.
ghost use Rattle.std.specs.Prelude.{◌≡◌, ◌++◌, [], ◌∷◌, List, ℕ, map, IsTrue, IfOk, OnOk};
ghost use Rattle.pat_semantics_spec.specs.Configs.{Message as Messages};
ghost use Rattle.pat_semantics_spec.specs.WellFormed.{WellFormed};
ghost use Rattle.pat_core.specs.Views.{program_view};
ghost use Rattle.pat_types.specs.Views.{type_view, needs_view};
ghost use Rattle.pat_derivations.specs.Views.{derivation_view};
ghost use Rattle.pat_reduce.specs.threads.ThreadViews.{message_view};
ghost use Rattle.pat_reduce.specs.Views.{config_view};
ghost use Rattle.pat_checkpoint_spec.specs.Mailboxes.{mailboxes_differ};
ghost use Rattle.pat_checkpoint_spec.specs.Numbers.{ascends, numbers_hold};
ghost use Rattle.pat_checkpoint_spec.specs.HoldingsInOrder.{Held};
ghost use Rattle.pat_checkpoint_data.specs.Views.{checkpoint_view};
ghost use Rattle.pat_checkpoint_balances.specs.Gathered.{rows_view, tags_of, coming, expected, Parted, IsGathered};

use crate::rows::{add, no_rows};
use crate::walk::all_held;
use pat_checkpoint_data::Checkpoint;
use pat_checkpoint_laws::examining_laws;
use pat_core::Program;
use pat_derivations::Derivation;
use pat_patterns::Pattern;
use pat_primitives::Polarity;
use pat_reduce::Message;
use pat_sequences::Sequence;
use pat_types::MailboxType;
use std::alloc::{AllocError, Global};

/// For each live mailbox, in their order, what may come: the tags of pending messages and what may be sent; and the patterns of its
/// receivers.
#[derive(Drop)]
pub struct Sides {
    pub coming: Sequence<Sequence<Pattern>>,
    pub receivers: Sequence<Sequence<Pattern>>,
}

/// Gathers the sides of all balances in one walk. Numbers hold, and mailboxes differ.
pub fn sides_of(
    alloc: Global,
    program: &Program,
    derivation: &Derivation,
    checkpoint: &Checkpoint,
) -> Result<Sides, AllocError>
    requires well { WellFormed (program_view program.now) }
    requires numbers { IsTrue (numbers_hold (config_view checkpoint.now.config)) }
    requires differ { IsTrue (mailboxes_differ (config_view checkpoint.now.config)) }
    ensures { IfOk result (IsGathered (program_view program.now) (derivation_view derivation.now) (checkpoint_view checkpoint.now)) }
{
    examining_laws();
    let live = checkpoint.config.live.as_slice();
    let held = all_held(alloc, program, derivation, checkpoint)?;
    let tags = tags_coming(alloc, live, checkpoint.config.messages.as_slice())?;
    parted(alloc, live, tags, held.as_slice())
}

// The tags of the messages that are pending in each mailbox.
fn tags_coming(
    alloc: Global,
    live: &[u32],
    messages: &[Message],
) -> Result<Sequence<Sequence<Pattern>>, AllocError>
    requires { IsTrue (ascends 0 live.now) }
    ensures { IfOk result (λ rows. rows_view rows ≡ map (tags_of (map message_view messages.now)) live.now) }
{
    let mut rows = no_rows(alloc, live.len())?;
    for message in messages {
        add(&mut rows, live, message.mailbox, Pattern::Tag(message.tag))?;
    }
    Ok(rows)
}

// The sides, where these tags are pending and this is held.
fn parted(
    alloc: Global,
    live: &[u32],
    tags: Sequence<Sequence<Pattern>>,
    held: &[(u32, MailboxType)],
) -> Result<Sides, AllocError>
    requires { IsTrue (ascends 0 live.now) }
    ensures { IfOk result (λ sides. (ms : List Messages) → rows_view tags ≡ map (tags_of ms) live.now
        → Parted live.now ms (needs_view held.now) sides) }
{
    let receivers = no_rows(alloc, live.len())?;
    let mut sides = Sides {
        coming: tags,
        receivers,
    };
    for (mailbox, of) in held {
        add_side(&mut sides, live, *mailbox, of)?;
    }
    Ok(sides)
}

// Adds the pattern with which a mailbox is held to the side where it belongs.
fn add_side(
    sides: &mut Sides,
    live: &[u32],
    mailbox: u32,
    of: &MailboxType,
) -> Result<(), AllocError>
    requires { IsTrue (ascends 0 live.now) }
    ensures { OnOk result ((ms : List Messages) (hs : List Held) → Parted live.now ms hs sides.old
        → Parted live.now ms (hs ++ (mailbox, type_view of.now) ∷ []) sides.new) }
{
    let pattern = of.pattern.copy()?;
    match of.polarity {
        Polarity::Sending => add(&mut sides.coming, live, mailbox, pattern),
        Polarity::Receiving => add(&mut sides.receivers, live, mailbox, pattern),
    }
}
