// A history behind the text of its program, with its entries in order.
ghost use Rattle.std.specs.Prelude.{◌≤◌, ◌<◌, ℕ, List, IfOk, length, map};
ghost use Rattle.pat_semantics_spec.specs.Runs.{IsHistory};
ghost use Rattle.pat_core.specs.Views.{program_view};
ghost use Rattle.pat_reduce.specs.Views.{config_view, entry_view};
ghost use Rattle.pat_causal.specs.Order.{HasOrder};
ghost use Rattle.pat_replay_input.specs.Histories.{Replays};
ghost use Rattle.pat_command_order.specs.Allowed.{AllowedOrder};
ghost use Rattle.pat_limits.specs.Limits.{most_entries};

use pat_causal::order;
use pat_front::{Answer, FrontError, Status, Verdict, verdict_answer};
use pat_history_laws::read_is_text_law;
use pat_limits::MOST_ENTRIES;
use pat_reduce::Entry;
use pat_replay_input::{Remains, Replayed, order_text_of, replay_bytes, standing_of};
use pat_sequences::let_go;
use std::alloc::{AllocError, Global};

/// What `order` answers on these bytes.
pub fn answer_order(alloc: Global, bytes: &[u8]) -> Result<Answer, AllocError>
    ensures { IfOk result (λ a. AllowedOrder bytes.now a.text.items a.status) }
{
    match replay_bytes(alloc, bytes) {
        Ok(replayed) => {
            read_is_text_law();
            let answer = in_order(alloc, &replayed);
            let_go(replayed);
            answer
        }
        Err(FrontError::Refused(verdict)) => verdict_answer(alloc, verdict),
        Err(FrontError::NoMemory) => Err(AllocError),
    }
}

fn in_order(alloc: Global, replayed: &Replayed) -> Result<Answer, AllocError>
    requires { IsHistory (map entry_view replayed.now.entries.items) }
    ensures { (bytes : List ℕ) → Replays bytes (program_view replayed.now.code.program) (map entry_view replayed.now.entries.items)
        (config_view replayed.now.config) → IfOk result (λ a. AllowedOrder bytes a.text.items a.status) }
{
    if replayed.entries.len() > MOST_ENTRIES {
        return verdict_answer(alloc, Verdict::TooManyEntries);
    }
    let ordered = order(alloc, &replayed.entries)?;
    shown(alloc, replayed, &ordered)
}

// The text of the history in order, what it printed, and how it stands.
fn shown(alloc: Global, replayed: &Replayed, ordered: &[Entry]) -> Result<Answer, AllocError>
    requires few { length replayed.now.entries.items ≤ most_entries }
    requires history { IsHistory (map entry_view replayed.now.entries.items) }
    requires ordered { HasOrder (map entry_view replayed.now.entries.items) (map entry_view ordered.now) }
    ensures { (bytes : List ℕ) → Replays bytes (program_view replayed.now.code.program) (map entry_view replayed.now.entries.items)
        (config_view replayed.now.config) → IfOk result (λ a. AllowedOrder bytes a.text.items a.status) }
{
    let remains = Remains::of(alloc, &replayed.config)?;
    let printed = replayed.config.printed.as_slice();
    let standing = standing_of(&replayed.code, &replayed.config);
    let text = order_text_of(alloc, ordered, printed, &remains, standing)?;
    Ok(Answer {
        text,
        status: Status::Ok,
    })
}
