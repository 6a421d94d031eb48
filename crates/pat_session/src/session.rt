// The top call.
ghost use Rattle.std.specs.Prelude.{◌≡◌, IfOk, map, string_bytes};
ghost use Rattle.pat_run.specs.options.Options.{IsWithin};
ghost use Rattle.pat_command_run.specs.Runners.{RunGives, IsRunner};
ghost use Rattle.pat_session.specs.Allowed.{IsCommand, HasBounds, HasInput, AsksInput};
ghost use Rattle.pat_session.specs.Answers.{IsHelped};
ghost use Rattle.pat_session.specs.Asking.{IsAsking};
ghost use Rattle.pat_session.specs.Calls.{CallOf, ObeysOf, SaysUsage};
ghost use Rattle.pat_session.specs.Promises.{PromisesOf};

use crate::Command;
use crate::commands::{answer_to, read_asked};
use crate::laws::complete_law;
use crate::output::written;
use crate::words::command_of;
use pat_command_run::Finished;
use pat_front::Status;
use pat_input::InputError;
use pat_ports::{Gate, Sink, Source};
use pat_run::{RunOptions, run_alone, run_in_threads};
use pat_typed_program::Accepted;
use std::alloc::{AllocError, Global};
use std::sync::Wait;
use std::thread::Threads;

const USAGE: &[u8] =
    b"usage: pat check|derive|verify|print|run|replay|order|checkpoint|resume|load|help\n";

/// Reads the words and the source, does what they ask, and writes the whole answer. A run by several workers passes the gate and may
/// wait; all else is answered as by `pat_alone`, which waits for nobody.
pub fn pat<R: Threads + Wait + Sync, S: Source, K: Sink, G: Gate>(
    rt: &R,
    alloc: Global,
    words: &[String],
    source: &mut S,
    sink: &mut K,
    gate: &G,
) -> Status
    ensures promises { PromisesOf S.rest S.faults S.reach K.taken K.handed K.faults (map string_bytes words.now) source.old source.new sink.old sink.new result }
    // Words that ask for no input leave the source alone, so do those that are no command.
    ensures untouched { (AsksInput (map string_bytes words.now) → ⊥) → source.new ≡ source.old }
{
    complete_law();
    dispatch(rt, alloc, words, source, sink, gate)
}

/// The same, where worker 0 makes each run alone. It waits for nobody.
pub fn pat_alone<S: Source, K: Sink>(
    alloc: Global,
    words: &[String],
    source: &mut S,
    sink: &mut K,
) -> Status
    ensures promises { PromisesOf S.rest S.faults S.reach K.taken K.handed K.faults (map string_bytes words.now) source.old source.new sink.old sink.new result }
    // Words that ask for no input leave the source alone, so do those that are no command.
    ensures untouched { (AsksInput (map string_bytes words.now) → ⊥) → source.new ≡ source.old }
{
    complete_law();
    alone(alloc, words, source, sink)
}

// Several workers take threads and a gate.
fn dispatch<R: Threads + Wait + Sync, S: Source, K: Sink, G: Gate>(
    rt: &R,
    alloc: Global,
    words: &[String],
    source: &mut S,
    sink: &mut K,
    gate: &G,
) -> Status
    ensures no_command { SaysUsage (map string_bytes words.now) result }
    ensures untouched { (AsksInput (map string_bytes words.now) → ⊥) → source.new ≡ source.old }
    ensures helped { IsCommand Command.Help (map string_bytes words.now) → IsHelped (K.taken sink.old) (K.taken sink.new) result }
    ensures call { CallOf S.rest S.faults S.reach K.taken K.handed K.faults (map string_bytes words.now) source.old source.new sink.old sink.new result }
{
    if !asks_for_several(words) {
        return alone(alloc, words, source, sink);
    }
    let run = |accepted: Accepted, options: RunOptions| -> Result<Finished, AllocError>
        requires { IsWithin options }
        ensures { IfOk result (RunGives accepted options) }
    { run_in_threads(rt, alloc, accepted, options, gate) };
    respond(alloc, &run, words, source, sink)
}

// Whether the words ask for a run by several workers.
fn asks_for_several(words: &[String]) -> bool {
    match command_of(words) {
        Some(Command::Run(options)) => options.workers > 1,
        Some(Command::Load(_, options)) => options.workers > 1,
        _ => false,
    }
}

// All but several workers: it starts no thread and waits for none.
fn alone<S: Source, K: Sink>(
    alloc: Global,
    words: &[String],
    source: &mut S,
    sink: &mut K,
) -> Status
    ensures no_command { SaysUsage (map string_bytes words.now) result }
    ensures untouched { (AsksInput (map string_bytes words.now) → ⊥) → source.new ≡ source.old }
    ensures helped { IsCommand Command.Help (map string_bytes words.now) → IsHelped (K.taken sink.old) (K.taken sink.new) result }
    ensures call { CallOf S.rest S.faults S.reach K.taken K.handed K.faults (map string_bytes words.now) source.old source.new sink.old sink.new result }
{
    let run = |accepted: Accepted, options: RunOptions| -> Result<Finished, AllocError>
        requires { IsWithin options }
        ensures { IfOk result (RunGives accepted options) }
    { run_alone(alloc, accepted, options) };
    respond(alloc, &run, words, source, sink)
}

// Usage, or what the command comes to.
fn respond<F: Fn(Accepted, RunOptions) -> Result<Finished, AllocError>, S: Source, K: Sink>(
    alloc: Global,
    run: &F,
    words: &[String],
    source: &mut S,
    sink: &mut K,
) -> Status
    requires runner { IsRunner (F.pre run.now) (F.post run.now) }
    ensures no_command { SaysUsage (map string_bytes words.now) result }
    ensures untouched { (AsksInput (map string_bytes words.now) → ⊥) → source.new ≡ source.old }
    ensures helped { IsCommand Command.Help (map string_bytes words.now) → IsHelped (K.taken sink.old) (K.taken sink.new) result }
    ensures call { CallOf S.rest S.faults S.reach K.taken K.handed K.faults (map string_bytes words.now) source.old source.new sink.old sink.new result }
{
    match command_of(words) {
        Some(command) => obey(alloc, run, command, source, sink),
        None => written(sink, USAGE, Status::Usage),
    }
}

// Does what a command asks.
fn obey<F: Fn(Accepted, RunOptions) -> Result<Finished, AllocError>, S: Source, K: Sink>(
    alloc: Global,
    run: &F,
    command: Command,
    source: &mut S,
    sink: &mut K,
) -> Status
    requires runner { IsRunner (F.pre run.now) (F.post run.now) }
    requires bounds { HasBounds command }
    ensures call { ObeysOf S.rest S.faults S.reach K.taken K.handed K.faults command source.old source.new sink.old sink.new result }
    ensures untouched { (HasInput command → ⊥) → source.new ≡ source.old }
    ensures helped { command ≡ Command.Help → IsHelped (K.taken sink.old) (K.taken sink.new) result }
{
    match command {
        Command::Help => written(sink, USAGE, Status::Ok),
        _ => comply(alloc, run, command, source, sink),
    }
}

// Does what a command asks, but for help, which asks for nothing.
fn comply<F: Fn(Accepted, RunOptions) -> Result<Finished, AllocError>, S: Source, K: Sink>(
    alloc: Global,
    run: &F,
    command: Command,
    source: &mut S,
    sink: &mut K,
) -> Status
    requires runner { IsRunner (F.pre run.now) (F.post run.now) }
    requires bounds { HasBounds command }
    requires asking { IsAsking command }
    ensures call { ObeysOf S.rest S.faults S.reach K.taken K.handed K.faults command source.old source.new sink.old sink.new result }
    ensures untouched { (HasInput command → ⊥) → source.new ≡ source.old }
{
    let asked = match read_asked(alloc, command, source) {
        Ok(asked) => asked,
        Err(InputError::Failed) => return Status::ReadFault,
        Err(InputError::NoMemory) => return Status::NoMemory,
    };
    match answer_to(alloc, run, asked) {
        Ok(answer) => written(sink, answer.text.as_slice(), answer.status),
        Err(AllocError) => Status::NoMemory,
    }
}
