// Writing a whole text to a sink.
ghost use Rattle.std.specs.Prelude.{◌≢◌, OnOk, OnErr};
ghost use Rattle.std.specs.Io.KnownBytes.{Appends};
ghost use Rattle.pat_ports.specs.Causes.{Counted};
ghost use Rattle.pat_session.specs.Ports.{IsCutShort, HandsAll, Writes, sink_state};

use pat_front::Status;
use pat_ports::{Failed, Sink};

/// The status, where the whole text could be written, and else that of a write that failed.
pub fn written<K: Sink>(sink: &mut K, text: &[u8], status: Status) -> Status
    requires { status ≢ Status.WriteFault }
    ensures { Writes (sink_state K.taken K.handed K.faults sink.old) (sink_state K.taken K.handed K.faults sink.new) text.now status result }
{
    match write_text(sink, text) {
        Ok(()) => status,
        Err(Failed) => Status::WriteFault,
    }
}

fn write_text<K: Sink>(sink: &mut K, text: &[u8]) -> Result<(), Failed>
    ensures ok { OnOk result (Appends (K.taken sink.old) (K.taken sink.new) text.now) }
    ensures err { OnErr result (IsCutShort (K.taken sink.old) (K.taken sink.new) text.now) }
    ensures counted { Counted (K.faults sink.old) (K.faults sink.new) result }
    ensures handed { HandsAll (K.handed sink.old) (K.handed sink.new) result text.now }
{
    let mut done = 0;
    while done < text.len() {
        done += sink.write(&text[done..])?;
    }
    Ok(())
}
