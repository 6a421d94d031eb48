// A sink over memory, which fails at the calls that it is told to.
ghost use Rattle.std.specs.Prelude.{◌≡◌, ◌-◌, ◌<◌, ◌≤◌, ◌↔◌, ◌⊎◌, Some, None, List, [], length, take, min, IfOk, IsErr, IsTrue};
ghost use Rattle.std.specs.Io.KnownBytes.{WriteAppends};
ghost use Rattle.pat_ports.specs.Causes.{Counted};
ghost use Rattle.pat_ports.specs.Bytes.{WritesSome, HandsOver};
ghost use Rattle.pat_ports.specs.Memory.{MemorySink, is_listed, number_after, Refuses};

use crate::counting::raised;
use crate::plan::{is_planned, next_call};
use crate::{Failed, Sink};
use std::alloc::{AllocError, Global};
use std::marker::Model;

/// Keeps what it takes, at most `piece` bytes at a call and `room` in all. Its calls are numbered from 1: those whose
/// numbers are listed fail, and so does one that brings a byte where `room` bytes were taken.
#[derive(Drop)]
pub struct MemSink {
    // All of the room. What was taken stands in front.
    buffer: Vec<u8>,
    len: usize,
    piece: usize,
    failing: Vec<u64>,
    call: Option<u64>,
    faults: u64,
}

impl Model for MemSink {
    ghost Value = { MemorySink };

    ghost view = { λ s. record { taken = take s.len s.buffer.items; piece = s.piece; room = length s.buffer.items; failing = s.failing.items; call = s.call; faults = s.faults } };

    ghost invariant = { λ s. (s.len ≤ length s.buffer.items) × (0 < s.piece) };
}

impl MemSink {
    /// A sink that has taken nothing and failed at no call. This takes all the memory that it will need.
    pub fn new(
        alloc: Global,
        piece: usize,
        failing: Vec<u64>,
        room: usize,
    ) -> Result<Self, AllocError>
        requires { 0 < piece }
        ensures { IfOk result (λ s. s ≡ record {
          taken = [];
          piece = piece;
          room = room;
          failing = failing.items;
          call = Some 1;
          faults
              = 0;
        }) }
    {
        Ok(MemSink {
            buffer: vec![in alloc; 0; room]?,
            len: 0,
            piece,
            failing,
            call: Some(1),
            faults: 0,
        })
    }

    /// The bytes taken so far.
    pub fn taken(&self) -> &[u8]
        ensures { result.now ≡ self.now.taken }
    {
        &self.buffer[..self.len]
    }
}

impl Sink for MemSink {
    ghost taken = { λ s. Some s.taken };

    ghost faults = { λ s. s.faults };

    ghost handed = { λ s. Some s.taken };

    fn write(&mut self, bytes: &[u8]) -> Result<usize, Failed>
        ensures count { WritesSome result bytes.now }
        ensures bytes { WriteAppends (Some self.old.taken) (Some self.new.taken) result bytes.now }
        ensures fails { IsErr result ↔ Refuses self.old bytes.now }
        ensures given { IfOk result (λ n. n ≡ min (min (length bytes.now) self.old.piece) (self.old.room - length self.old.taken)) }
        ensures counted { Counted self.old.faults self.new.faults result }
        ensures handed { HandsOver (Some self.old.taken) (Some self.new.taken) result bytes.now }
        ensures numbered { self.new.call ≡ number_after self.old.call }
        ensures plan { (self.new.piece ≡ self.old.piece) × (self.new.room ≡ self.old.room) × (self.new.failing ≡ self.old.failing) }
    {
        let left = self.buffer.len() - self.len;
        let fails = is_planned(self.call, self.failing.as_slice())
            || (left == 0 && !bytes.is_empty());
        self.call = next_call(self.call);
        if fails {
            self.faults = raised(self.faults);
            return Err(Failed);
        }
        let count = bytes.len().min(self.piece).min(left);
        let end = self.len + count;
        self.buffer[self.len..end].copy_from_slice(&bytes[..count]);
        self.len = end;
        Ok(count)
    }
}
