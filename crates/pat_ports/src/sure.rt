// A source and a sink that never fail.
ghost use Rattle.std.specs.Prelude.{◌≡◌, ◌<◌, ◌≤◌, Some, None, length, drop, min, IfOk, IsOk};
ghost use Rattle.std.specs.Io.{ReadsAtMost};
ghost use Rattle.std.specs.Io.KnownBytes.{ReadConsumes, WriteAppends};
ghost use Rattle.pat_ports.specs.Causes.{Counted};
ghost use Rattle.pat_ports.specs.Ends.{Reaches};
ghost use Rattle.pat_ports.specs.Bytes.{WritesSome, HandsOver};
ghost use Rattle.pat_ports.specs.Memory.{Pieces};

use crate::copying::copy_front;
use crate::{Failed, Reach, Sink, Source};
use std::marker::Model;

/// Gives its bytes, at most `piece` at a call, and never fails.
#[derive(Drop)]
pub struct SureSource {
    bytes: Vec<u8>,
    at: usize,
    piece: usize,
    reach: Reach,
}

impl Model for SureSource {
    ghost Value = { Pieces };

    ghost view = { λ s. record { rest = drop s.at s.bytes.items; piece = s.piece; reach = s.reach } };

    ghost invariant = { λ s. (s.at ≤ length s.bytes.items) × (0 < s.piece) };
}

impl SureSource {
    /// A source of these bytes. It takes no memory.
    pub fn new(bytes: Vec<u8>, piece: usize) -> Self
        requires { 0 < piece }
        ensures { result ≡ record { rest = bytes.items; piece = piece; reach = Reach.Before } }
    {
        SureSource {
            bytes,
            at: 0,
            piece,
            reach: Reach::Before,
        }
    }
}

impl Source for SureSource {
    ghost rest = { λ s. Some s.rest };

    ghost faults = { λ _. 0 };

    ghost reach = { λ s. Some s.reach };

    fn read(&mut self, buf: &mut [u8]) -> Result<usize, Failed>
        ensures bound { ReadsAtMost result buf.new }
        ensures bytes { ReadConsumes (Some self.old.rest) (Some self.new.rest) result buf.new }
        ensures counted { Counted 0 0 result }
        ensures reach { Reaches (Some self.old.reach) (Some self.new.reach) result buf.new }
        ensures never { IsOk result }
        ensures given { IfOk result (λ n. n ≡ min (min (length self.old.rest) (length buf.old)) self.old.piece) }
        ensures plan { self.new.piece ≡ self.old.piece }
    {
        let count = copy_front(&self.bytes.as_slice()[self.at..], buf, self.piece);
        self.at += count;
        self.reach = self.reach.after(count == 0 && !buf.is_empty());
        Ok(count)
    }
}

/// Drops what it takes, at most `piece` bytes at a call, and so tells nothing of it. It never fails.
#[derive(Drop)]
pub struct SureSink {
    piece: usize,
    ghost pieces: { 0 < piece },
}

impl SureSink {
    /// A sink of pieces of at most so many bytes. It takes no memory.
    pub fn new(piece: usize) -> Self
        requires { 0 < piece }
        ensures { result.piece ≡ piece }
    {
        SureSink { piece }
    }
}

impl Sink for SureSink {
    ghost taken = { λ _. None };

    ghost faults = { λ _. 0 };

    fn write(&mut self, bytes: &[u8]) -> Result<usize, Failed>
        ensures count { WritesSome result bytes.now }
        ensures bytes { WriteAppends None None result bytes.now }
        ensures counted { Counted 0 0 result }
        ensures handed { HandsOver None None result bytes.now }
        ensures never { IsOk result }
        ensures given { IfOk result (λ n. n ≡ min (length bytes.now) self.old.piece) }
        ensures plan { self.new.piece ≡ self.old.piece }
    {
        Ok(bytes.len().min(self.piece))
    }
}
