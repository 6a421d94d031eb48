// The standard streams, which count their errors and tell what std's reader and writer tell.
ghost use Rattle.std.specs.Prelude.{◌≡◌, None, Some};
ghost use Rattle.std.specs.Io.{ReadsAtMost, WritesAtMost};
ghost use Rattle.std.specs.Io.KnownBytes.{ReadConsumes, WriteAppends};
ghost use Rattle.pat_ports.specs.Causes.{Counted};
ghost use Rattle.pat_ports.specs.Ends.{Reaches};
ghost use Rattle.pat_ports.specs.Bytes.{WritesSome, HandsOver};

use crate::counting::raised;
use crate::{Failed, Reach, Sink, Source};
use std::io::{self, Read, Write};

/// A reader of the system, as standard input. Every error is a fault, an interrupted read too. The bytes left are those
/// that the reader tells, over memory; standard input tells none.
#[derive(Drop)]
pub struct StdSource<R: Read + Drop> {
    inner: R,
    faults: u64,
    reach: Reach,
}

impl<R: Read + Drop> StdSource<R> {
    /// A source over this reader, with no fault counted yet.
    pub fn new(inner: R) -> Self
        ensures { result ≡ record { inner = inner; faults = 0; reach = Reach.Before } }
    {
        StdSource {
            inner,
            faults: 0,
            reach: Reach::Before,
        }
    }
}

impl<R: Read + Drop> Source for StdSource<R> {
    ghost rest = { λ s. R.remaining s.inner };

    ghost faults = { λ s. s.faults };

    ghost reach = { λ s. Some s.reach };

    fn read(&mut self, buf: &mut [u8]) -> Result<usize, Failed>
        ensures bound { ReadsAtMost result buf.new }
        ensures bytes { ReadConsumes (R.remaining self.old.inner) (R.remaining self.new.inner) result buf.new }
        ensures counted { Counted self.old.faults self.new.faults result }
        ensures reach { Reaches (Some self.old.reach) (Some self.new.reach) result buf.new }
    {
        match self.inner.read(buf) {
            Ok(count) => {
                self.reach = self.reach.after(count == 0 && !buf.is_empty());
                Ok(count)
            }
            Err(_) => {
                self.reach = self.reach.after(false);
                self.faults = raised(self.faults);
                Err(Failed)
            }
        }
    }
}

/// A writer of the system, as standard output. A write is flushed in the same call. Every error of either is a fault,
/// and so is a write that takes nothing. What the writer holds after a flush that failed may be more than was taken, so
/// what was taken isn't told, and what was handed over is.
#[derive(Drop)]
pub struct StdSink<W: Write + Drop> {
    inner: W,
    faults: u64,
}

impl<W: Write + Drop> StdSink<W> {
    /// A sink over this writer, with no fault counted yet.
    pub fn new(inner: W) -> Self
        ensures { result ≡ record { inner = inner; faults = 0 } }
    {
        StdSink { inner, faults: 0 }
    }

    fn write_through(&mut self, bytes: &[u8]) -> io::Result<usize>
        ensures count { WritesAtMost result bytes.now }
        ensures faults { self.new.faults ≡ self.old.faults }
        ensures handed { HandsOver (W.contents self.old.inner) (W.contents self.new.inner) result bytes.now }
    {
        let count = self.inner.write(bytes)?;
        self.inner.flush()?;
        Ok(count)
    }
}

impl<W: Write + Drop> Sink for StdSink<W> {
    ghost taken = { λ _. None };

    ghost faults = { λ s. s.faults };

    ghost handed = { λ s. W.contents s.inner };

    fn write(&mut self, bytes: &[u8]) -> Result<usize, Failed>
        ensures count { WritesSome result bytes.now }
        ensures bytes { WriteAppends None None result bytes.now }
        ensures counted { Counted self.old.faults self.new.faults result }
        ensures handed { HandsOver (W.contents self.old.inner) (W.contents self.new.inner) result bytes.now }
    {
        match self.write_through(bytes) {
            Ok(count) if count > 0 || bytes.is_empty() => Ok(count),
            _ => {
                self.faults = raised(self.faults);
                Err(Failed)
            }
        }
    }
}
