//! A source of bytes in memory that fails where it is told to.
ghost use Rattle.std.specs.Prelude.{◌≡◌, ◌<◌, ◌↔◌, Some, min, length, IfOk, IsErr, Contains};
ghost use Rattle.std.specs.Io.{ReadsAtMost};
ghost use Rattle.std.specs.Io.KnownBytes.{ReadConsumes};
ghost use Rattle.m88_base.specs.Calls.{CountsCall};
ghost use Rattle.m88_base.specs.Causes.{FailsByFault, one_more, faults_after};

use crate::failing::{Failed, NoMemory};
use crate::pieces::{give, is_failing};
use crate::source::Source;
use std::alloc::Global;
use std::marker::Model;

/// A source of bytes in memory. It gives at most a piece a call, and fails in chosen calls.
#[derive(Drop, Debug)]
pub struct MemSource {
    bytes: Vec<u8>,
    at: usize,
    piece: usize,
    failing: Vec<u32>,
    calls: u64,
    faults: u64,
}

impl Model for MemSource {
    ghost use Rattle.std.specs.Prelude.{◌<◌, ◌≤◌, drop, vec_len};
    ghost use Rattle.m88_base.specs.Memory.{MemoryIn};

    ghost Value = { MemoryIn };

    ghost view = { λ s. record {
      left = drop s.at s.bytes.items;
      faults = s.faults;
      calls = s.calls;
      piece = s.piece;
      failing = s.failing.items;
    } };

    ghost invariant = { λ s. (s.at ≤ vec_len s.bytes) × (0 < s.piece) };
}

impl MemSource {
    /// A source of `bytes` that gives at most `piece` bytes a call. Its calls are counted from 0, and it
    /// fails in those that `failing` lists.
    pub fn new(
        alloc: Global,
        bytes: &[u8],
        piece: usize,
        failing: &[u32],
    ) -> Result<MemSource, NoMemory>
        requires { 0 < piece }
        ensures { IfOk result (λ source. source ≡ record {
          left = bytes.now;
          faults = 0;
          calls = 0;
          piece = piece;
          failing = failing.now;
        }) }
    {
        let bytes = Vec::from_slice(alloc, bytes)?;
        let failing = Vec::from_slice(alloc, failing)?;
        Ok(MemSource {
            bytes,
            at: 0,
            piece,
            failing,
            calls: 0,
            faults: 0,
        })
    }

    /// How many calls of `read` were made, those that failed too; at its greatest number the count stays.
    pub fn calls(&self) -> u64
        ensures { result ≡ self.now.calls }
    {
        self.calls
    }
}

impl Source for MemSource {
    ghost left = { λ s. Some s.left };

    ghost faults = { λ s. s.faults };

    ghost calls = { λ s. Some s.calls };

    fn read(&mut self, buf: &mut [u8]) -> Result<usize, Failed>
        requires { 0 < length buf.old }
        ensures bound { ReadsAtMost result buf.new }
        ensures bytes { ReadConsumes (Some self.old.left) (Some self.new.left) result buf.new }
        ensures counted { CountsCall (Some self.old.calls) (Some self.new.calls) }
        ensures cause { FailsByFault self.old.faults self.new.faults result }
        ensures fails { IsErr result ↔ Contains self.old.failing self.old.calls }
        ensures gives { IfOk result (λ count. count
            ≡ min (min (length buf.old) self.old.piece) (length self.old.left)) }
        ensures stays { self.new ≡ record self.old {
          left = self.new.left;
          faults = faults_after self.old.faults result;
          calls = one_more self.old.calls;
        } }
    {
        let fails = is_failing(&self.failing, self.calls);
        self.calls = self.calls.saturating_add(1);
        if fails {
            self.faults = self.faults.saturating_add(1);
            return Err(Failed);
        }
        let count = give(&self.bytes, self.at, self.piece, buf);
        self.at += count;
        Ok(count)
    }
}
