// Calls over memory.
use pat_front::Status;
use pat_ports::{MemSink, MemSource, OpenGate};
use pat_session::pat;
use std::alloc::Global;
use std::sync::Wait;
use std::test::Fail;
use std::thread::Threads;

// The bytes that a port gives or takes at once.
const PIECE: usize = 4096;

// What a call on these words and these texts, one behind another, answers.
pub fn answer<R: Threads + Wait + Sync>(
    rt: &R,
    alloc: Global,
    words: &[&str],
    texts: &[&[u8]],
) -> Result<(Status, Vec<u8>), Fail> {
    let mut input = Vec::new(alloc);
    for part in texts {
        input.extend_from_slice(part)?;
    }
    let mut command = Vec::new(alloc);
    for word in words {
        command.push(String::from_str(alloc, word)?)?;
    }
    let mut source = MemSource::new(input, PIECE, Vec::new(alloc));
    let mut sink = MemSink::new(alloc, PIECE, Vec::new(alloc), 2 * PIECE)?;
    let words = command.as_slice();
    let status = pat(rt, alloc, words, &mut source, &mut sink, &OpenGate);
    Ok((status, sink.taken().to_vec(alloc)?))
}
