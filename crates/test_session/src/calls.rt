// Calls over memory.
ghost use Rattle.std.specs.Prelude.{◌<◌};

use pat_front::Status;
use pat_ports::{Gate, MemSink, MemSource, OpenGate};
use pat_session::pat;
use std::alloc::Global;
use std::sync::Wait;
use std::test::Fail;
use std::thread::Threads;

// What a call on these words and this input answers, with ports of these pieces that fail at these calls.
pub fn answer<R: Threads + Wait + Sync>(
    rt: &R,
    alloc: Global,
    words: &[&str],
    input: &[u8],
    pieces: (usize, usize),
    failing: (u64, u64),
) -> Result<(Status, Vec<u8>), Fail>
    requires source { 0 < pieces.0 }
    requires sink { 0 < pieces.1 }
{
    let mut source = MemSource::new(input.to_vec(alloc)?, pieces.0, vec![in alloc; failing.0]?);
    let mut sink = MemSink::new(alloc, pieces.1, vec![in alloc; failing.1]?, 8192)?;
    let words = owned(alloc, words)?;
    let status = pat(
        rt,
        alloc,
        words.as_slice(),
        &mut source,
        &mut sink,
        &OpenGate,
    );
    Ok((status, sink.taken().to_vec(alloc)?))
}

// What a call on these words and this input answers, past a gate.
pub fn answer_past<R: Threads + Wait + Sync, G: Gate>(
    rt: &R,
    alloc: Global,
    words: &[&str],
    input: &[u8],
    gate: &G,
) -> Result<(Status, Vec<u8>), Fail> {
    let mut source = MemSource::new(input.to_vec(alloc)?, 4096, Vec::new(alloc));
    let mut sink = MemSink::new(alloc, 4096, Vec::new(alloc), 8192)?;
    let words = owned(alloc, words)?;
    let status = pat(rt, alloc, words.as_slice(), &mut source, &mut sink, gate);
    Ok((status, sink.taken().to_vec(alloc)?))
}

fn owned(alloc: Global, words: &[&str]) -> Result<Vec<String>, Fail> {
    let mut command = Vec::new(alloc);
    for word in words {
        command.push(String::from_str(alloc, word)?)?;
    }
    Ok(command)
}
