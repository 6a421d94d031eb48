// Readers and writers that fail, take a part, or count.
use std::io::{Error, ErrorKind, Read, Result, Write};

/// Gives one byte at a call, and fails so at the call whose number it holds, counted from 1.
#[derive(Drop)]
pub struct BrokenReader {
    pub call: u64,
    pub fails_at: u64,
    pub kind: ErrorKind,
}

impl Read for BrokenReader {
    fn read(&mut self, buf: &mut [u8]) -> Result<usize> {
        self.call = self.call.saturating_add(1);
        if self.call == self.fails_at {
            return Err(Error::from(self.kind));
        }
        if buf.is_empty() {
            return Ok(0);
        }
        buf[0] = b'x';
        Ok(1)
    }
}

/// Takes at most two bytes of a piece. A flush whose number is `fails_at`, counted from 1, fails so.
#[derive(Drop)]
pub struct ShortWriter<'a> {
    pub taken: &'a mut Vec<u8>,
    pub flushes: &'a mut u64,
    pub fails_at: u64,
    pub kind: ErrorKind,
}

impl Write for ShortWriter<'_> {
    fn write(&mut self, buf: &[u8]) -> Result<usize> {
        let count = buf.len().min(2);
        self.taken.extend_from_slice(&buf[..count])?;
        Ok(count)
    }

    fn flush(&mut self) -> Result<()> {
        *self.flushes = self.flushes.saturating_add(1);
        if *self.flushes == self.fails_at {
            return Err(Error::from(self.kind));
        }
        Ok(())
    }
}
