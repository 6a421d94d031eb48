// What the history of an input printed, and how it stands.
ghost use Rattle.std.specs.Prelude.{◌<◌, ℕ, List, IfOk, length, map};
ghost use Rattle.pat_core.specs.Views.{program_view};
ghost use Rattle.pat_reduce.specs.Views.{config_view, entry_view};
ghost use Rattle.pat_command_replay.specs.Allowed.{AllowedReplay};
ghost use Rattle.pat_command_replay.specs.Pieces.{ReplaysInput};
ghost use Rattle.pat_limits.specs.Limits.{most_number};

use crate::pieces::replay_input;
use pat_front::{Answer, FrontError, Status, verdict_answer};
use pat_replay_input::{Remains, Replayed, replay_text_of, standing_of};
use pat_sequences::let_go;
use std::alloc::{AllocError, Global};

/// What `replay` answers on these bytes.
pub fn answer_replay(alloc: Global, bytes: &[u8]) -> Result<Answer, AllocError>
    ensures { IfOk result (λ a. AllowedReplay bytes.now a.text.items a.status) }
{
    match replay_input(alloc, bytes) {
        Ok(replayed) => {
            let answer = shown(alloc, &replayed);
            let_go(replayed);
            answer
        }
        Err(FrontError::Refused(verdict)) => verdict_answer(alloc, verdict),
        Err(FrontError::NoMemory) => Err(AllocError),
    }
}

// The output of a history, and how it stands.
fn shown(alloc: Global, replayed: &Replayed) -> Result<Answer, AllocError>
    requires few { length replayed.now.entries.items < most_number }
    ensures { (bytes : List ℕ)
        → ReplaysInput bytes (program_view replayed.now.code.program) (map entry_view replayed.now.entries.items)
        (config_view replayed.now.config)
        → IfOk result (λ a. AllowedReplay bytes a.text.items a.status) }
{
    let remains = Remains::of(alloc, &replayed.config)?;
    let printed = replayed.config.printed.as_slice();
    let standing = standing_of(&replayed.code, &replayed.config);
    let text = replay_text_of(alloc, &replayed.entries, printed, &remains, standing)?;
    Ok(Answer {
        text,
        status: Status::Ok,
    })
}
