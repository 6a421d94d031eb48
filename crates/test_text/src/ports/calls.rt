use crate::checking::check;
use crate::ports::writers::{BrokenReader, ShortWriter};
use pat_ports::{
    Failed, Gate, MemSink, MemSource, OpenGate, Sink, Source, StdSink, StdSource, SureSink,
    SureSource,
};
use std::alloc::Global;
use std::io;
use std::process::Abort;
use std::test::Fail;

fn ports_in_memory_fail_where_told(rt: &impl Abort, alloc: Global) -> Result<(), Fail> {
    let mut source = MemSource::new(b"abc".to_vec(alloc)?, 2, vec![in alloc; 2]?);
    let mut buf = [0u8; 4];
    for want in [Ok(2), Err(Failed), Ok(1), Ok(0)] {
        check(rt, source.read(&mut buf) == want);
    }
    check(rt, buf[0] == b'c');
    let mut sink = MemSink::new(alloc, 2, vec![in alloc; 3]?, 4)?;
    for (piece, want) in [
        (b"abc", Ok(2)),
        (b"cde", Ok(2)),
        (b"efg", Err(Failed)),
        (b"efg", Err(Failed)),
    ] {
        check(rt, sink.write(piece) == want);
    }
    check(rt, sink.write(b"") == Ok(0));
    check(rt, sink.taken() == b"abcd".as_slice());
    let mut sure = SureSource::new(b"xyz".to_vec(alloc)?, 2);
    check(rt, sure.read(&mut buf) == Ok(2));
    check(rt, SureSink::new(2).write(b"xyz") == Ok(2));
    OpenGate.before(0, 1);
    OpenGate.after(0, 1);
    Ok(())
}

pub fn given_and_taken(rt: &(impl Abort + Input + Print), alloc: Global) -> Result<(), Fail> {
    let mut buf = [0u8; 4];
    let mut input = StdSource::new(rt.reader());
    check(rt, input.read(&mut buf[..0]) == Ok(0));
    let mut source = StdSource::new(b"abcde".as_slice());
    for want in [4, 1, 0] {
        check(rt, source.read(&mut buf) == Ok(want));
    }
    let mut output = StdSink::new(io::writer(rt));
    check(rt, output.write(b"to standard output\n") == Ok(19));
    let mut none = [0u8; 2];
    let mut sink = StdSink::new(none.as_mut_slice());
    check(rt, sink.write(b"abc") == Ok(2));
    check(rt, sink.write(b"c") == Err(Failed));
    check(rt, sink.write(b"") == Ok(0));
    ports_in_memory_fail_where_told(rt, alloc)?;
    for kind in [io::ErrorKind::Other, io::ErrorKind::Interrupted] {
        a_broken_reader_fails(rt, kind);
        a_short_writer_is_flushed(rt, alloc, kind)?;
    }
    Ok(())
}

// An error is no end, and what follows it is still read. One that interrupts is a fault too: it isn't tried again.
fn a_broken_reader_fails(rt: &impl Abort, kind: io::ErrorKind) {
    let mut source = StdSource::new(BrokenReader {
        call: 0,
        fails_at: 2,
        kind,
    });
    let mut buf = [0u8; 4];
    for want in [Ok(1), Err(Failed), Ok(1)] {
        check(rt, source.read(&mut buf) == want);
    }
}

// Each write is flushed, a part of a piece is answered as a part, and a flush that fails is a fault, one that is interrupted too.
fn a_short_writer_is_flushed(
    rt: &impl Abort,
    alloc: Global,
    kind: io::ErrorKind,
) -> Result<(), Fail> {
    let mut taken = Vec::new(alloc);
    let mut flushes = 0;
    let mut sink = StdSink::new(ShortWriter {
        taken: &mut taken,
        flushes: &mut flushes,
        fails_at: 3,
        kind,
    });
    for (piece, want) in [
        (b"abc", Ok(2)),
        (b"cde", Ok(2)),
        (b"efg", Err(Failed)),
        (b"ghi", Ok(2)),
    ] {
        check(rt, sink.write(piece) == want);
    }
    drop(sink);
    check(rt, taken.as_slice() == b"abcdefgh".as_slice());
    check(rt, flushes == 4);
    Ok(())
}
