//! A sink in memory that fails where it is told to.
ghost use Rattle.std.specs.Prelude.{◌≡◌, ◌-◌, ◌<◌, ◌≤◌, ◌↔◌, ◌⊎◌, Some, min, length, IfOk, IsErr, Contains, []};
ghost use Rattle.std.specs.Io.KnownBytes.{WriteAppends};
ghost use Rattle.m88_base.specs.Calls.{CountsCall};
ghost use Rattle.m88_base.specs.Causes.{FailsByFault, one_more, faults_after};

use crate::failing::{Failed, NoMemory};
use crate::pieces::is_failing;
use crate::sink::Sink;
use std::alloc::Global;
use std::marker::Model;

/// A sink in memory with room for so many bytes. It takes at most a piece a call, and fails in
/// chosen calls and where its room is full.
#[derive(Drop, Debug)]
pub struct MemSink {
    bytes: Vec<u8>,
    room: usize,
    piece: usize,
    failing: Vec<u32>,
    calls: u64,
    faults: u64,
}

impl Model for MemSink {
    ghost use Rattle.std.specs.Prelude.{◌<◌, ◌≤◌, vec_len, vec_capacity};
    ghost use Rattle.m88_base.specs.Memory.{MemoryOut};

    ghost Value = { MemoryOut };

    ghost view = { λ s. record {
      held = s.bytes.items;
      faults = s.faults;
      calls = s.calls;
      room = s.room;
      piece = s.piece;
      failing = s.failing.items;
    } };

    ghost invariant = { λ s. (vec_len s.bytes ≤ s.room) × (s.room ≤ vec_capacity s.bytes) × (0 < s.piece) };
}

impl MemSink {
    /// An empty sink with room for `room` bytes, all taken here. It takes at most `piece` bytes a
    /// call. Its calls are counted from 0, and it fails in those that `failing` lists.
    pub fn new(
        alloc: Global,
        room: usize,
        piece: usize,
        failing: &[u32],
    ) -> Result<MemSink, NoMemory>
        requires { 0 < piece }
        ensures { IfOk result (λ sink. sink ≡ record {
          held = [];
          faults = 0;
          calls = 0;
          room = room;
          piece = piece;
          failing = failing.now;
        }) }
    {
        let bytes = Vec::with_capacity(alloc, room)?;
        let failing = Vec::from_slice(alloc, failing)?;
        Ok(MemSink {
            bytes,
            room,
            piece,
            failing,
            calls: 0,
            faults: 0,
        })
    }

    /// The bytes taken so far.
    pub fn bytes(&self) -> &[u8]
        ensures { result.now ≡ self.now.held }
    {
        self.bytes.as_slice()
    }

    /// How many calls of `write` were made, those that failed too; at its greatest number the count stays.
    pub fn calls(&self) -> u64
        ensures { result ≡ self.now.calls }
    {
        self.calls
    }
}

impl Sink for MemSink {
    ghost held = { λ s. Some s.held };

    ghost faults = { λ s. s.faults };

    ghost calls = { λ s. Some s.calls };

    fn write(&mut self, buf: &[u8]) -> Result<usize, Failed>
        requires { 0 < length buf.now }
        ensures bound { IfOk result (λ count. (0 < count) × (count ≤ length buf.now)) }
        ensures bytes { WriteAppends (Some self.old.held) (Some self.new.held) result buf.now }
        ensures counted { CountsCall (Some self.old.calls) (Some self.new.calls) }
        ensures cause { FailsByFault self.old.faults self.new.faults result }
        ensures fails { IsErr result
            ↔ (Contains self.old.failing self.old.calls ⊎ (length self.old.held ≡ self.old.room)) }
        ensures takes { IfOk result (λ count. count
            ≡ min (min (length buf.now) self.old.piece) (self.old.room - length self.old.held)) }
        ensures stays { self.new ≡ record self.old {
          held = self.new.held;
          faults = faults_after self.old.faults result;
          calls = one_more self.old.calls;
        } }
    {
        let fails = is_failing(&self.failing, self.calls);
        self.calls = self.calls.saturating_add(1);
        if fails || self.bytes.len() == self.room {
            self.faults = self.faults.saturating_add(1);
            return Err(Failed);
        }
        let count = buf.len().min(self.piece).min(self.room - self.bytes.len());
        match self.bytes.extend_from_slice(&buf[..count]) {
            Ok(()) => Ok(count),
            Err(_) => unreachable!(),
        }
    }
}
