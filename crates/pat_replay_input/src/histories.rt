// The replay of a history behind the text of its program.
ghost use Rattle.std.specs.Prelude.{◌≡◌, ◌<◌, ◌≤◌, ◌+◌, IfOk, length, map};
ghost use Rattle.pat_semantics_spec.specs.Configs.{start};
ghost use Rattle.pat_semantics_spec.specs.Orders.{IsOrdered};
ghost use Rattle.pat_semantics_spec.specs.WellFormed.{WellFormed};
ghost use Rattle.pat_core.specs.Views.{program_view};
ghost use Rattle.pat_reduce.specs.Views.{config_view, entry_view};
ghost use Rattle.pat_semantics_laws.specs.Laws.{history_steps};
ghost use Rattle.pat_checkpoint_spec.specs.Resumed.{made_along};
ghost use Rattle.pat_replay.specs.Replays.{HasRoom};
ghost use Rattle.pat_replay_input.specs.Histories.{IsHistoryPart};
ghost use Rattle.pat_replay_input.specs.Gives.{BytesGive, TextGives, PartGives, Makes, refusal_of};
ghost use Rattle.pat_limits.specs.Limits.{most_number};
ghost use Rattle.pat_input.specs.Inputs.{whole_limit};

use pat_core::Program;
use pat_front::{FrontError, Verdict};
use pat_history::read;
use pat_input_split::{place_of_mark, program_before};
use pat_reduce::{Config, Entry};
use pat_reduce_values::Executable;
use pat_replay::{ReplayError, replay_from, replay_from_start};
use pat_sequences::Sequence;
use pat_texts::TextError;
use std::alloc::Global;

/// A program, a history of it, the configuration that this leads to, and the interfaces of the mailboxes that it makes, in the order in which
/// they are made.
#[derive(Drop)]
pub struct Replayed {
    pub code: Executable,
    pub entries: Vec<Entry>,
    pub config: Config,
    pub made: Sequence<u32>,
}

/// The bytes are the text of a program, and behind it that of a history: what this leads to.
pub fn replay_bytes(alloc: Global, bytes: &[u8]) -> Result<Replayed, FrontError>
    ensures gives { BytesGive bytes.now result }
    ensures few { IfOk result (λ r. length r.entries.items < most_number) }
{
    match program_before(alloc, bytes, b"%%history") {
        Ok((program, at)) => replay_text(alloc, program, &bytes[at..], at as u32),
        Err(error) => Err(error),
    }
}

// The history that a text spells whose first byte has this offset.
fn replay_text(
    alloc: Global,
    program: Program,
    text: &[u8],
    from: u32,
) -> Result<Replayed, FrontError>
    requires well_formed { WellFormed (program_view program) }
    requires room { from + length text.now ≤ whole_limit }
    ensures gives { TextGives (program_view program) (start (program_view program)) from text.now result }
    ensures few { IfOk result (λ r. length r.entries.items < most_number) }
{
    match Executable::new(alloc, program) {
        Ok(code) => replay_part_from_start(alloc, code, before_output(text), from),
        Err(_) => Err(FrontError::NoMemory),
    }
}

fn replay_part_from_start(
    alloc: Global,
    code: Executable,
    part: &[u8],
    from: u32,
) -> Result<Replayed, FrontError>
    requires room { from + length part.now ≤ whole_limit }
    ensures gives { PartGives (program_view code.program) (start (program_view code.program)) from part.now result }
    ensures few { IfOk result (λ r. length r.entries.items < most_number) }
{
    match read(alloc, part, from) {
        Ok(entries) => match replay_from_start(alloc, &code, &entries) {
            Ok(reached) => Ok(Replayed {
                code,
                entries,
                config: reached.config,
                made: reached.made,
            }),
            Err(error) => Err(refusal_of(error)),
        },
        Err(TextError::BadText(offset)) => Err(FrontError::Refused(Verdict::BadText(offset))),
        Err(TextError::NoMemory) => Err(FrontError::NoMemory),
    }
}

// What is said where a history isn't replayed.
fn refusal_of(error: ReplayError) -> FrontError
    ensures { result ≡ refusal_of error }
{
    match error {
        ReplayError::RefusedAt(entry) => FrontError::Refused(Verdict::RefusedAt(entry)),
        ReplayError::NoMemory => FrontError::NoMemory,
    }
}

/// So of a history that goes on from this configuration of the program.
pub fn replay_behind(
    alloc: Global,
    code: Executable,
    config: Config,
    text: &[u8],
    from: u32,
) -> Result<Replayed, FrontError>
    requires ordered { IsOrdered (config_view config) }
    requires numbers { HasRoom (config_view config) whole_limit }
    requires room { from + length text.now ≤ whole_limit }
    ensures gives { TextGives (program_view code.program) (config_view config) from text.now result }
    ensures few { IfOk result (λ r. length r.entries.items < most_number) }
    ensures made { IfOk result (Makes (program_view code.program) (config_view config)) }
{
    replay_part(alloc, code, config, before_output(text), from)
}

// What is looked at of a text: nothing from the first line `%%output` on.
fn before_output(text: &[u8]) -> &[u8]
    ensures part { IsHistoryPart text.now result.now }
    ensures within { length result.now ≤ length text.now }
{
    match place_of_mark(text, b"%%output") {
        Some(at) => &text[..at],
        None => text,
    }
}

fn replay_part(
    alloc: Global,
    code: Executable,
    config: Config,
    part: &[u8],
    from: u32,
) -> Result<Replayed, FrontError>
    requires ordered { IsOrdered (config_view config) }
    requires numbers { HasRoom (config_view config) whole_limit }
    requires room { from + length part.now ≤ whole_limit }
    ensures gives { PartGives (program_view code.program) (config_view config) from part.now result }
    ensures few { IfOk result (λ r. length r.entries.items < most_number) }
    ensures made { IfOk result (Makes (program_view code.program) (config_view config)) }
{
    match read(alloc, part, from) {
        Ok(entries) => match replay_from(alloc, &code, config, &entries) {
            Ok(reached) => Ok(Replayed {
                code,
                entries,
                config: reached.config,
                made: reached.made,
            }),
            Err(error) => Err(refusal_of(error)),
        },
        Err(TextError::BadText(offset)) => Err(FrontError::Refused(Verdict::BadText(offset))),
        Err(TextError::NoMemory) => Err(FrontError::NoMemory),
    }
}
