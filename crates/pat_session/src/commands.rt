// What each command answers.
ghost use Rattle.std.specs.Prelude.{◌≡◌, ℕ, List, IfOk};
ghost use Rattle.pat_ports.specs.Ends.{EndsOnce};
ghost use Rattle.pat_input.specs.Inputs.{IsRead, FaultsAfter};
ghost use Rattle.pat_command_run.specs.Runners.{IsRunner};
ghost use Rattle.pat_session.specs.Allowed.{AllowedTo, HasBounds, HasInput};
ghost use Rattle.pat_session.specs.Asking.{Asks, GivesAsked, GivesAskedInput, IsAsked, IsAsking, IsOfProgram, IsOfParts};

use crate::Command;
use pat_command_check::answer_check;
use pat_command_checkpoint::answer_checkpoint;
use pat_command_derive::answer_derive;
use pat_command_order::answer_order;
use pat_command_print::answer_print;
use pat_command_replay::answer_replay;
use pat_command_resume::answer_resume;
use pat_command_run::{Detail, Finished, answer_load, answer_run};
use pat_command_verify::answer_verify;
use pat_front::Answer;
use pat_input::{Input, InputError, read_bytes, read_tokens};
use pat_ports::Source;
use pat_run::RunOptions;
use pat_typed_program::Accepted;
use std::alloc::{AllocError, Global};

/// What there is to answer.
#[derive(Drop)]
pub enum Asked {
    Check(Input),
    Derive(Input),
    Print(Input),
    Run(RunOptions, Input),
    Replay(Vec<u8>),
    Order(Vec<u8>),
    Verify(Vec<u8>),
    Checkpoint(u32, Vec<u8>),
    Resume(u32, Vec<u8>),
    Load(u32, RunOptions),
}

/// What a command answers on this input, where a program is run so.
pub fn answer_to<F: Fn(Accepted, RunOptions) -> Result<Finished, AllocError>>(
    alloc: Global,
    run: &F,
    asked: Asked,
) -> Result<Answer, AllocError>
    requires runner { IsRunner (F.pre run.now) (F.post run.now) }
    requires asked { IsAsked asked }
    ensures { (command : Command) (bytes : List ℕ) → Asks command bytes asked → IfOk result (λ a. AllowedTo command bytes a.text.items a.status) }
{
    match asked {
        Asked::Check(input) => answer_check(alloc, input),
        Asked::Derive(input) => answer_derive(alloc, input),
        Asked::Print(input) => answer_print(alloc, input),
        Asked::Run(options, input) => answer_run(alloc, run, Detail::Whole, options, input),
        Asked::Replay(bytes) => answer_replay(alloc, bytes.as_slice()),
        Asked::Order(bytes) => answer_order(alloc, bytes.as_slice()),
        Asked::Verify(bytes) => answer_verify(alloc, bytes.as_slice()),
        Asked::Checkpoint(steps, bytes) => answer_checkpoint(alloc, steps, bytes.as_slice()),
        Asked::Resume(steps, bytes) => answer_resume(alloc, steps, bytes.as_slice()),
        Asked::Load(size, options) => answer_load(alloc, run, size, options),
    }
}

/// Reads what the command asks for; the source is left alone where that is nothing.
pub fn read_asked<S: Source>(
    alloc: Global,
    command: Command,
    source: &mut S,
) -> Result<Asked, InputError>
    requires bounds { HasBounds command }
    requires asking { IsAsking command }
    ensures ok { IfOk result (GivesAsked command (S.rest source.old) (S.rest source.new) (S.reach source.old) (S.reach source.new)) }
    ensures faults { FaultsAfter (S.faults source.old) (S.faults source.new) result }
    ensures one_end { EndsOnce (S.reach source.old) (S.reach source.new) }
    ensures untouched { (HasInput command → ⊥) → source.new ≡ source.old }
{
    match command {
        Command::Load(size, options) => Ok(Asked::Load(size, options)),
        Command::Help => unreachable!(),
        Command::Replay => read_parts(alloc, command, source),
        Command::Order => read_parts(alloc, command, source),
        Command::Verify => read_parts(alloc, command, source),
        Command::Checkpoint(_) => read_parts(alloc, command, source),
        Command::Resume(_) => read_parts(alloc, command, source),
        _ => read_program(alloc, command, source),
    }
}

// A program alone.
fn read_program<S: Source>(
    alloc: Global,
    command: Command,
    source: &mut S,
) -> Result<Asked, InputError>
    requires bounds { HasBounds command }
    requires program { IsOfProgram command }
    ensures ok { IfOk result (GivesAskedInput command (S.rest source.old) (S.rest source.new) (S.reach source.old) (S.reach source.new)) }
    ensures faults { FaultsAfter (S.faults source.old) (S.faults source.new) result }
    ensures one_end { EndsOnce (S.reach source.old) (S.reach source.new) }
{
    let input = read_tokens(alloc, source)?;
    Ok(asked_of_program(command, input))
}

fn asked_of_program(command: Command, input: Input) -> Asked
    requires bounds { HasBounds command }
    requires program { IsOfProgram command }
    ensures { (bytes : List ℕ) → IsRead bytes input → Asks command bytes result }
{
    match command {
        Command::Check => Asked::Check(input),
        Command::Derive => Asked::Derive(input),
        Command::Print => Asked::Print(input),
        Command::Run(options) => Asked::Run(options, input),
        _ => unreachable!(),
    }
}

// A program, and texts behind it if there are any.
fn read_parts<S: Source>(
    alloc: Global,
    command: Command,
    source: &mut S,
) -> Result<Asked, InputError>
    requires bounds { HasBounds command }
    requires parts { IsOfParts command }
    ensures ok { IfOk result (GivesAskedInput command (S.rest source.old) (S.rest source.new) (S.reach source.old) (S.reach source.new)) }
    ensures faults { FaultsAfter (S.faults source.old) (S.faults source.new) result }
    ensures one_end { EndsOnce (S.reach source.old) (S.reach source.new) }
{
    let bytes = read_bytes(alloc, source)?;
    Ok(asked_of_parts(command, bytes))
}

fn asked_of_parts(command: Command, bytes: Vec<u8>) -> Asked
    requires bounds { HasBounds command }
    requires parts { IsOfParts command }
    ensures { Asks command bytes.items result }
{
    match command {
        Command::Replay => Asked::Replay(bytes),
        Command::Order => Asked::Order(bytes),
        Command::Verify => Asked::Verify(bytes),
        Command::Checkpoint(steps) => Asked::Checkpoint(steps, bytes),
        Command::Resume(steps) => Asked::Resume(steps, bytes),
        _ => unreachable!(),
    }
}
