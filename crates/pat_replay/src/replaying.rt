// The steps of a history, entry after entry.
ghost use Rattle.std.specs.Prelude.{◌≡◌, ◌++◌, [], length, map, option_map, IfOk, OnOk, IsTrue, IsFalse};
ghost use Rattle.pat_semantics_spec.specs.Programs.{option_list};
ghost use Rattle.pat_semantics_spec.specs.Configs.{start, thread_at};
ghost use Rattle.pat_semantics_spec.specs.Orders.{IsOrdered};
ghost use Rattle.pat_semantics_spec.specs.Runs.{entry_steps, shared_step};
ghost use Rattle.pat_semantics_laws.specs.Laws.{history_steps};
ghost use Rattle.pat_type_system_spec.specs.Interfaces.{made_by};
ghost use Rattle.pat_checkpoint_spec.specs.Resumed.{made_along};
ghost use Rattle.pat_semantics_spec.specs.Steps.{step as after_step};
ghost use Rattle.pat_core.specs.Views.{program_view};
ghost use Rattle.pat_reduce.specs.Views.{act_view, config_view, entry_view, step_view};
ghost use Rattle.pat_replay.specs.Kept.{kept_view, IsKept};
ghost use Rattle.pat_replay.specs.Replays.{HasTaken, HasRoom, ReplayGives, EntryGives, LeadsTo, SharedGives};

use crate::error::ReplayError;
use crate::kept::Kept;
use crate::making::{Reached, note_made};
use crate::tables::Tables;
use pat_reduce::{Act, Config, Entry, Step, StepError};
use pat_reduce_values::Executable;
use pat_sequences::Sequence;
use std::alloc::{AllocError, Global};

/// Where a history leads, from the start of a program. So many entries leave numbers for what they make.
pub fn replay_from_start(
    alloc: Global,
    code: &Executable,
    entries: &[Entry],
) -> Result<Reached, ReplayError>
    requires room { HasRoom (start (program_view code.now.program)) (length entries.now) }
    ensures replays { ReplayGives (program_view code.now.program) (start (program_view code.now.program)) (map entry_view entries.now)
        result }
    ensures made { IfOk result (λ r. r.made ≡ made_along (program_view code.now.program) (start (program_view code.now.program))
        (history_steps (map entry_view entries.now))) }
{
    match Tables::start(alloc, code, sends_among(entries)) {
        Ok(tables) => replay_kept(alloc, code, Kept::InTables(tables), entries),
        Err(AllocError) => Err(ReplayError::NoMemory),
    }
}

/// Where a history leads, from a configuration in order. So many entries leave numbers for what they make.
pub fn replay_from(
    alloc: Global,
    code: &Executable,
    config: Config,
    entries: &[Entry],
) -> Result<Reached, ReplayError>
    requires ordered { IsOrdered (config_view config) }
    requires room { HasRoom (config_view config) (length entries.now) }
    ensures replays { ReplayGives (program_view code.now.program) (config_view config) (map entry_view entries.now) result }
    ensures made { IfOk result (λ r. r.made ≡ made_along (program_view code.now.program) (config_view config)
        (history_steps (map entry_view entries.now))) }
{
    replay_kept(alloc, code, Kept::Plain(config), entries)
}

// How many entries send: no more messages are ever pending.
fn sends_among(entries: &[Entry]) -> u32 {
    let mut sends: u32 = 0;
    for entry in entries {
        if entry.shared == Some(Act::Send) {
            sends = sends.saturating_add(1);
        }
    }
    sends
}

fn replay_kept(
    alloc: Global,
    code: &Executable,
    kept: Kept,
    entries: &[Entry],
) -> Result<Reached, ReplayError>
    requires ordered { IsOrdered (kept_view kept) }
    requires room { HasRoom (kept_view kept) (length entries.now) }
    requires kept { IsKept kept }
    ensures replays { ReplayGives (program_view code.now.program) (kept_view kept) (map entry_view entries.now) result }
    ensures made { IfOk result (λ r. r.made ≡ made_along (program_view code.now.program) (kept_view kept)
        (history_steps (map entry_view entries.now))) }
{
    let mut kept = kept;
    let mut made = Sequence::new(alloc);
    for i in 0..entries.len() {
        let entry = entries[i];
        match take_entry(alloc, code, &mut kept, &mut made, entry) {
            Ok(()) => {}
            Err(StepError::Disabled) => return Err(ReplayError::RefusedAt(i as u32)),
            Err(StepError::NoMemory) => return Err(ReplayError::NoMemory),
        }
    }
    let config = kept.into_config(alloc)?;
    Ok(Reached { config, made })
}

// The steps of an entry, which has one at least. The interface of the mailbox that it makes, if it makes one, goes behind the others.
fn take_entry(
    alloc: Global,
    code: &Executable,
    kept: &mut Kept,
    made: &mut Sequence<u32>,
    entry: Entry,
) -> Result<(), StepError>
    requires taken { HasTaken (kept_view kept.old) 4294967294 }
    requires ordered { IsOrdered (kept_view kept.old) }
    requires kept { IsKept kept.old }
    ensures gives { EntryGives (program_view code.now.program) (kept_view kept.old) (entry_view entry) (kept_view kept.new) result }
    ensures kept { OnOk result (IsKept kept.new) }
    ensures made { OnOk result (made.new ≡ made.old ++ made_along (program_view code.now.program) (kept_view kept.old)
        (entry_steps (entry_view entry))) }
{
    if !has_step(&entry) {
        return Err(StepError::Disabled);
    }
    match kept.run_locals(alloc, code, entry.thread, entry.local) {
        Ok(()) => take_shared(alloc, code, kept, made, entry.thread, entry.shared),
        Err(error) => Err(error),
    }
}

fn has_step(entry: &Entry) -> bool
    ensures some { IsTrue result → entry_steps (entry_view entry.now) ≡ [] → ⊥ }
    ensures none { IsFalse result → entry_steps (entry_view entry.now) ≡ [] }
{
    entry.local > 0 || entry.shared.is_some()
}

// The shared step of an entry, if it has one.
fn take_shared(
    alloc: Global,
    code: &Executable,
    kept: &mut Kept,
    made: &mut Sequence<u32>,
    thread: u32,
    shared: Option<Act>,
) -> Result<(), StepError>
    requires taken { HasTaken (kept_view kept.old) 4294967294 }
    requires ordered { IsOrdered (kept_view kept.old) }
    requires kept { IsKept kept.old }
    ensures gives { SharedGives (program_view code.now.program) (kept_view kept.old) thread (option_map act_view shared)
        (kept_view kept.new) result }
    ensures kept { OnOk result (IsKept kept.new) }
    ensures made { OnOk result (made.new ≡ made.old ++ made_along (program_view code.now.program) (kept_view kept.old)
        (shared_step thread (option_map act_view shared))) }
{
    match shared {
        Some(act) => take_noted(alloc, code, kept, made, &Step { thread, act }),
        None => Ok(()),
    }
}

// A step of a configuration in order. The interface of the mailbox that it makes, if it makes one, goes behind the others.
fn take_noted(
    alloc: Global,
    code: &Executable,
    kept: &mut Kept,
    made: &mut Sequence<u32>,
    step: &Step,
) -> Result<(), StepError>
    requires taken { HasTaken (kept_view kept.old) 4294967294 }
    requires ordered { IsOrdered (kept_view kept.old) }
    requires kept { IsKept kept.old }
    ensures gives { LeadsTo (after_step (program_view code.now.program) (kept_view kept.old) (step_view step.now)) (kept_view kept.new) result }
    ensures kept { OnOk result (IsKept kept.new) }
    ensures made { OnOk result (made.new ≡ made.old ++ option_list (made_by (program_view code.now.program) (act_view step.now.act)
        (thread_at (kept_view kept.old) step.now.thread))) }
{
    match note_made(code, kept, made, step) {
        Ok(()) => kept.take(alloc, code, step),
        Err(_) => Err(StepError::NoMemory),
    }
}
