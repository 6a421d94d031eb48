// A source over bytes in memory, which fails at the calls that it is told to.
ghost use Rattle.std.specs.Prelude.{◌≡◌, ◌<◌, ◌≤◌, ◌↔◌, Some, None, List, length, drop, min, IfOk, IsErr, IsTrue};
ghost use Rattle.std.specs.Io.{ReadsAtMost};
ghost use Rattle.std.specs.Io.KnownBytes.{ReadConsumes};
ghost use Rattle.pat_ports.specs.Causes.{Counted};
ghost use Rattle.pat_ports.specs.Ends.{Reaches};
ghost use Rattle.pat_ports.specs.Memory.{MemorySource, is_listed, number_after};

use crate::copying::copy_front;
use crate::counting::raised;
use crate::plan::{is_planned, next_call};
use crate::{Failed, Reach, Source};
use std::marker::Model;

/// Gives its bytes, at most `piece` at a call. Its calls are numbered from 1, and those whose numbers are listed fail.
#[derive(Drop)]
pub struct MemSource {
    bytes: Vec<u8>,
    at: usize,
    piece: usize,
    failing: Vec<u64>,
    call: Option<u64>,
    faults: u64,
    reach: Reach,
}

impl Model for MemSource {
    ghost Value = { MemorySource };

    ghost view = { λ s. record { rest = drop s.at s.bytes.items; piece = s.piece; failing = s.failing.items; call = s.call; faults = s.faults; reach = s.reach } };

    ghost invariant = { λ s. (s.at ≤ length s.bytes.items) × (0 < s.piece) };
}

impl MemSource {
    /// A source of these bytes that has failed at no call. It takes no memory.
    pub fn new(bytes: Vec<u8>, piece: usize, failing: Vec<u64>) -> Self
        requires { 0 < piece }
        ensures { result ≡ record {
          rest = bytes.items;
          piece = piece;
          failing = failing.items;
          call = Some 1;
          faults = 0;
          reach
              = Reach.Before;
        } }
    {
        MemSource {
            bytes,
            at: 0,
            piece,
            failing,
            call: Some(1),
            faults: 0,
            reach: Reach::Before,
        }
    }
}

impl Source for MemSource {
    ghost rest = { λ s. Some s.rest };

    ghost faults = { λ s. s.faults };

    ghost reach = { λ s. Some s.reach };

    fn read(&mut self, buf: &mut [u8]) -> Result<usize, Failed>
        ensures bound { ReadsAtMost result buf.new }
        ensures bytes { ReadConsumes (Some self.old.rest) (Some self.new.rest) result buf.new }
        ensures fails { IsErr result ↔ IsTrue (is_listed self.old.call self.old.failing) }
        ensures given { IfOk result (λ n. n ≡ min (min (length self.old.rest) (length buf.old)) self.old.piece) }
        ensures counted { Counted self.old.faults self.new.faults result }
        ensures reach { Reaches (Some self.old.reach) (Some self.new.reach) result buf.new }
        ensures numbered { self.new.call ≡ number_after self.old.call }
        ensures plan { (self.new.piece ≡ self.old.piece) × (self.new.failing ≡ self.old.failing) }
    {
        let fails = is_planned(self.call, self.failing.as_slice());
        self.call = next_call(self.call);
        if fails {
            self.faults = raised(self.faults);
            self.reach = self.reach.after(false);
            return Err(Failed);
        }
        let count = copy_front(&self.bytes.as_slice()[self.at..], buf, self.piece);
        self.at += count;
        self.reach = self.reach.after(count == 0 && !buf.is_empty());
        Ok(count)
    }
}
