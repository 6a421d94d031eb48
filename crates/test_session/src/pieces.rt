// Calls over memory on a line of words, in pieces of several sizes.
ghost use Rattle.std.specs.Prelude.{◌<◌};

use crate::checking::check;
use pat_ports::{MemSink, MemSource, OpenGate};
use pat_session::pat;
use std::alloc::Global;
use std::process::Abort;
use std::sync::Wait;
use std::test::Fail;
use std::thread::Threads;

// The exit status of a call on this line of words and this input, and what is written, with ports of these pieces that fail
// at these calls.
pub fn answer<R: Threads + Wait + Sync>(
    rt: &R,
    alloc: Global,
    line: &str,
    input: &[u8],
    pieces: (usize, usize),
    failing: (u64, u64),
) -> Result<(u8, Vec<u8>), Fail>
    requires source { 0 < pieces.0 }
    requires sink { 0 < pieces.1 }
{
    let mut source = MemSource::new(input.to_vec(alloc)?, pieces.0, vec![in alloc; failing.0]?);
    let mut sink = MemSink::new(alloc, pieces.1, vec![in alloc; failing.1]?, 8192)?;
    let mut words = Vec::new(alloc);
    for word in line.split(' ') {
        words.push(String::from_str(alloc, word)?)?;
    }
    let words = words.as_slice();
    let status = pat(rt, alloc, words, &mut source, &mut sink, &OpenGate);
    Ok((status.code(), sink.taken().to_vec(alloc)?))
}

// The answer is this one, whatever the pieces.
pub fn expect<R: Abort + Threads + Wait + Sync>(
    rt: &R,
    alloc: Global,
    line: &str,
    input: &[u8],
    code: u8,
    text: &[u8],
) -> Result<(), Fail> {
    for piece in [1, 2, 8, 4096] {
        let (came, taken) = answer(rt, alloc, line, input, (piece, piece), (0, 0))?;
        check(rt, came == code);
        check(rt, taken.as_slice() == text);
    }
    Ok(())
}
