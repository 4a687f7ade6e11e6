//! A run of bytes at consecutive addresses.
ghost use Rattle.std.specs.Prelude.{◌≡◌, ◌+◌, ◌-◌, ◌^◌, ◌≤◌, ◌++◌, [], take, drop, length, replicate, slice_get, IfOk, OnOk, OnErr};
ghost use Rattle.m88_base.specs.Found.{filled};
ghost use Rattle.m88_base.specs.Placed.{byte_in};
ghost use Rattle.m88_base.specs.Inside.Blocks.{with_ahead, with_behind};

use arrayvec::ArrayVec;
use std::alloc::{AllocError, Global};
use std::marker::Model;

/// The most bytes that a run keeps without memory for them.
const MOST_FEW: usize = 8;

/// Bytes at consecutive addresses, none past 0xFFFFFFFF. A run that begins with few keeps them in itself, and takes no
/// memory for them until more come. Ahead of the others may be room for more, so that bytes which come in descending
/// order of their addresses are moved few times.
#[derive(Drop, Debug)]
pub struct Segment {
    at: u32,
    ahead: usize,
    few: ArrayVec<u8, MOST_FEW>,
    kept: Vec<u8>,
}

impl Model for Segment {
    ghost use Rattle.std.specs.Prelude.{◌+◌, ◌^◌, ◌≤◌, drop, length};
    ghost use Rattle.m88_base.specs.Inside.Kept.{kept_bytes};
    ghost use Rattle.m88_base.specs.Placed.{Placed};

    ghost Value = { Placed };

    ghost view = { λ run. record {
      at = run.at;
      bytes = kept_bytes run.few.items (drop run.ahead run.kept.items);
    } };

    ghost invariant = { λ run. (run.ahead ≤ length run.kept.items)
        × (run.at + length (kept_bytes run.few.items (drop run.ahead run.kept.items)) ≤ 2 ^ 32) };
}

impl Segment {
    /// A run of copied bytes.
    pub fn new(alloc: Global, at: u32, bytes: &[u8]) -> Result<Segment, AllocError>
        requires { at + length bytes.now ≤ 2 ^ 32 }
        ensures { IfOk result (λ run. run ≡ record { at = at; bytes = bytes.now }) }
    {
        let mut few = ArrayVec::new();
        if few.try_extend_from_slice(bytes).is_ok() {
            return Ok(Segment {
                at,
                ahead: 0,
                few,
                kept: Vec::new(alloc),
            });
        }
        let kept = Vec::from_slice(alloc, bytes)?;
        Ok(Segment {
            at,
            ahead: 0,
            few: ArrayVec::new(),
            kept,
        })
    }

    /// A copy of the run, with bytes of its own.
    pub fn copy(&self, alloc: Global) -> Result<Segment, AllocError>
        ensures { IfOk result (λ run. run ≡ self.now) }
    {
        Segment::new(alloc, self.at, self.bytes())
    }

    /// The address of the first byte.
    pub fn at(&self) -> u32
        ensures { result ≡ self.now.at }
    {
        self.at
    }

    /// The bytes in order of their addresses.
    pub fn bytes(&self) -> &[u8]
        ensures value { result.now ≡ self.now.bytes }
        ensures fits { self.now.at + length self.now.bytes ≤ 2 ^ 32 }
    {
        if self.few.is_empty() {
            let (_, bytes) = self.kept.as_slice().split_at(self.ahead);
            return bytes;
        }
        self.few.as_slice()
    }

    /// The address just after the last byte.
    pub fn end(&self) -> u64
        ensures value { result ≡ self.now.at + length self.now.bytes }
        ensures bound { result ≤ 2 ^ 32 }
    {
        u64::from(self.at) + self.bytes().len() as u64
    }

    /// The byte at an address that does not lie below the run, where there is one.
    pub fn byte(&self, at: u32) -> Option<u8>
        requires { self.now.at ≤ at }
        ensures { result ≡ slice_get self.now.bytes (at - self.now.at) }
    {
        self.bytes().get((at - self.at) as usize).copied()
    }

    /// The bytes from an address on that does not lie below the run, none where it lies behind it.
    pub fn bytes_from(&self, at: u32) -> &[u8]
        requires { self.now.at ≤ at }
        ensures { result.now ≡ drop (at - self.now.at) self.now.bytes }
    {
        let bytes = self.bytes();
        let (_, rest) = bytes.split_at(bytes.len().min((at - self.at) as usize));
        rest
    }

    /// Writes the bytes over those that stand in a room for the addresses from `at` on.
    pub fn fill(&self, at: u32, room: &mut [u8])
        ensures { room.new ≡ filled (byte_in self.now) at room.old }
    {
        if self.at <= at {
            lay(self.bytes_from(at), room);
            return;
        }
        let gap = (self.at - at) as usize;
        if gap < room.len() {
            lay(self.bytes(), &mut room[gap..]);
        }
    }

    /// Puts copies of bytes behind the others.
    pub fn append(&mut self, alloc: Global, bytes: &[u8]) -> Result<(), AllocError>
        requires { self.old.at + length self.old.bytes + length bytes.now ≤ 2 ^ 32 }
        ensures ok { OnOk result (self.new ≡ with_behind self.old bytes.now) }
        ensures err { OnErr result (self.new ≡ self.old) }
    {
        if !self.few.is_empty() {
            self.kept = joined(alloc, self.few.as_slice(), bytes)?;
            self.few = ArrayVec::new();
            self.ahead = 0;
            return Ok(());
        }
        self.kept.extend_from_slice(bytes)?;
        Ok(())
    }

    /// Puts copies of bytes ahead of the others.
    pub fn prepend(&mut self, alloc: Global, bytes: &[u8]) -> Result<(), AllocError>
        requires { length bytes.now ≤ self.old.at }
        ensures ok { OnOk result (self.new ≡ with_ahead self.old bytes.now) }
        ensures err { OnErr result (self.new ≡ self.old) }
    {
        if !self.few.is_empty() || self.ahead < bytes.len() {
            let ahead = bytes.len() + self.bytes().len();
            self.kept = behind_room(alloc, ahead, bytes, self.bytes())?;
            self.few = ArrayVec::new();
            self.ahead = ahead;
            self.at -= bytes.len() as u32;
            return Ok(());
        }
        let ahead = self.ahead - bytes.len();
        self.kept[ahead..self.ahead].copy_from_slice(bytes);
        self.ahead = ahead;
        self.at -= bytes.len() as u32;
        Ok(())
    }
}

/// Writes as many of the bytes as there is room for over the first of a room.
fn lay(bytes: &[u8], room: &mut [u8])
    ensures { room.new ≡ take (length room.old) bytes.now ++ drop (length bytes.now) room.old }
{
    let count = bytes.len().min(room.len());
    room[..count].copy_from_slice(&bytes[..count]);
}

/// Copies of two lists of bytes in a row.
pub fn joined(alloc: Global, first: &[u8], second: &[u8]) -> Result<Vec<u8>, AllocError>
    ensures { IfOk result (λ both. both.items ≡ first.now ++ second.now) }
{
    let mut both = Vec::from_slice(alloc, first)?;
    both.extend_from_slice(second)?;
    Ok(both)
}

/// Copies of two lists of bytes behind room for so many others.
fn behind_room(
    alloc: Global,
    room: usize,
    first: &[u8],
    second: &[u8],
) -> Result<Vec<u8>, AllocError>
    ensures { IfOk result (λ kept. kept.items ≡ replicate room 0 ++ (first.now ++ second.now)) }
{
    let mut kept = vec![in alloc; 0u8; room]?;
    kept.extend_from_slice(first)?;
    kept.extend_from_slice(second)?;
    Ok(kept)
}
