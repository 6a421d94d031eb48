// A process, which is one call.
ghost use Rattle.std.specs.Prelude.{◌≡◌, IfOk, IfErr, drop};
ghost use Rattle.std.specs.Process.{exit_status};
ghost use Rattle.pat_front.specs.exit_answers.Statuses.{status_code};
ghost use Rattle.pat_session.specs.Processes.{AreArguments, MayLackMemory, ExitsOf};

use crate::session::pat;
use pat_front::Status;
use pat_ports::{Gate, Sink, Source};
use std::alloc::{AllocError, Global};
use std::env::Args;
use std::io;
use std::process::ExitCode;
use std::sync::Wait;
use std::thread::Threads;

/// What a process ends with that was given these arguments. They are its name and the words of the call. Where one isn't UTF-8 they are no
/// command, as none at all are.
pub fn exit<R: Threads + Wait + Sync, S: Source, K: Sink, G: Gate>(
    rt: &R,
    alloc: Global,
    arguments: io::Result<Args>,
    source: &mut S,
    sink: &mut K,
    gate: &G,
) -> ExitCode
    ensures { ExitsOf S.rest S.faults S.reach K.taken K.handed K.faults arguments source.old source.new sink.old sink.new result }
{
    match all_of(alloc, arguments) {
        Ok(all) => {
            let words = without_name(all.as_slice());
            exit_code(pat(rt, alloc, words, source, sink, gate))
        }
        Err(AllocError) => exit_code(Status::NoMemory),
    }
}

// All arguments, and none where one of them isn't text.
fn all_of(alloc: Global, arguments: io::Result<Args>) -> Result<Vec<String>, AllocError>
    ensures ok { IfOk result (λ all. AreArguments arguments all.items) }
    ensures err { IfErr result (λ _. MayLackMemory arguments) }
{
    match arguments {
        Ok(arguments) => arguments.collect(alloc),
        Err(error) if error.kind() == io::ErrorKind::OutOfMemory => Err(AllocError),
        Err(_) => Ok(Vec::new(alloc)),
    }
}

// All arguments but the first, which is the process's name.
fn without_name(arguments: &[String]) -> &[String]
    ensures { result.now ≡ drop 1 arguments.now }
{
    match arguments.split_first() {
        Some((_name, words)) => words,
        None => arguments,
    }
}

/// The exit status that says a status.
fn exit_code(status: Status) -> ExitCode
    ensures { exit_status result ≡ status_code status }
{
    ExitCode::from(status.code())
}
