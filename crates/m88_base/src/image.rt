//! The bytes of a program at their addresses.
ghost use Rattle.std.specs.Prelude.{◌≡◌, ◌+◌, ◌^◌, ◌<◌, ◌≤◌, ◌↔◌, ℕ, None, Some, Err, length, slice_get, IfErr, IfNone, IfOk, IfSome, IsTrue, OnOk, OnErr};
ghost use Rattle.m88_base.specs.Found.{IsFree, IsLeastTaken, IsPart, PutsBytes, filled};
ghost use Rattle.m88_base.specs.Placed.{byte_among};
ghost use Rattle.m88_base.specs.Image.{IsImage, IsTooLarge, ProgramImage, WhereOverlap, byte_at, byte_count, first_text, most_bytes, parts};

use crate::failing::NoMemory;
use crate::segments::Segments;
use std::alloc::{AllocError, Global};
use std::marker::Model;
use thiserror::Error;

/// The most bytes that an image has.
pub const MOST_BYTES: usize = 1_048_576;

/// The address of a program's first text, and the one at which a program starts that names no other.
pub const FIRST_TEXT: u32 = 0x1000;

/// Why bytes were not added to an image.
#[derive(Clone, Copy, PartialEq, Eq, Debug, Error)]
pub enum ImageFault {
    /// The bytes don't fit below 2^32, or the image would have more than 1,048,576 of them.
    #[error("too large")]
    TooLarge,
    /// The least of the new addresses that has a byte already.
    #[error("overlap {0:08X}")]
    Overlap(u32),
    /// There was no memory for the bytes.
    #[error("memory ran out")]
    Memory,
}

impl From<AllocError> for ImageFault {
    ghost use Rattle.std.specs.Prelude.{◌≡◌};
    ghost use Rattle.m88_base.specs.declared.image.ImageFault.TheVariants as image_fault;

    ghost from_gives = { λ _ fault. fault ≡ image_fault.Memory };

    fn from(_: AllocError) -> ImageFault {
        ImageFault::Memory
    }
}

/// A byte at each of at most 1,048,576 addresses, and the address at which the program starts.
#[derive(Drop, Debug)]
pub struct Image {
    alloc: Global,
    runs: Segments,
    len: usize,
    start: u32,
}

impl Model for Image {
    ghost use Rattle.std.specs.Prelude.{◌≡◌, ◌≤◌, ◌<◌, ◌^◌};
    ghost use Rattle.m88_base.specs.Found.{FindsBytes};
    ghost use Rattle.m88_base.specs.Placed.{AreApart, byte_among, count_among};
    ghost use Rattle.m88_base.specs.Image.{ProgramImage, most_bytes};

    ghost Value = { ProgramImage };

    ghost view = { λ image. record { runs = image.runs; start = image.start } };

    ghost invariant = { λ image. (image.len ≡ count_among image.runs) × (image.len ≤ most_bytes)
        × FindsBytes (byte_among image.runs) × (image.start < 2 ^ 32) × AreApart 0 image.runs };
}

impl Image {
    /// An image without bytes that starts at 0x00001000.
    #[tactic(auto, unfolding(crate::specs::Image::byte_at, crate::specs::Image::byte_count))]
    pub fn new(alloc: Global) -> Image
        ensures empty { (a : ℕ) → byte_at result a ≡ None }
        ensures len { byte_count result ≡ 0 }
        ensures start { result.start ≡ first_text }
    {
        Image {
            alloc,
            runs: Segments::new(alloc),
            len: 0,
            start: FIRST_TEXT,
        }
    }

    /// A copy of the image, with bytes of its own.
    pub fn copy(&self, alloc: Global) -> Result<Image, NoMemory>
        ensures { IfOk result (λ image. image ≡ self.now) }
    {
        let runs = self.runs.copy(alloc)?;
        Ok(Image {
            alloc,
            runs,
            len: self.len,
            start: self.start,
        })
    }

    /// Puts copies of the bytes at the addresses from `at` on.
    pub fn add(&mut self, at: u32, bytes: &[u8]) -> Result<(), ImageFault>
        ensures ok { OnOk result (PutsBytes (byte_at self.old) (byte_at self.new) at bytes.now) }
        ensures len { OnOk result (byte_count self.new ≡ byte_count self.old + length bytes.now) }
        ensures start { self.new.start ≡ self.old.start }

        // A refusal says which of its reasons came first, and changes nothing.
        ensures too_large { (result ≡ Err ImageFault.TooLarge)
            ↔ IsTooLarge self.old at (length bytes.now) }
        ensures overlap { IfErr result
            (WhereOverlap (IsLeastTaken (byte_at self.old) at (length bytes.now))) }
        ensures free { OnOk result (IsFree (byte_at self.old) at (length bytes.now)) }
        ensures err { OnErr result (self.new ≡ self.old) }
    {
        if self.is_too_large(at, bytes.len()) {
            return Err(ImageFault::TooLarge);
        }
        if bytes.is_empty() {
            return Ok(());
        }
        let index = self.runs.locate(at);
        let next = self.runs.next_start(index);
        if let Some(taken) = self.runs.first_taken(index, next, at, bytes.len()) {
            return Err(ImageFault::Overlap(taken));
        }
        self.runs.place(self.alloc, index, next, at, bytes)?;
        self.len += bytes.len();
        Ok(())
    }

    fn is_too_large(&self, at: u32, count: usize) -> bool
        ensures { IsTrue result ↔ IsTooLarge self.now at count }
    {
        (1 << 32) - (at as usize) < count || MOST_BYTES - self.len() < count
    }

    /// Sets the address at which the program starts.
    #[tactic(auto, unfolding(crate::specs::Image::byte_at, crate::specs::Image::byte_count))]
    pub fn set_start(&mut self, at: u32)
        ensures start { self.new.start ≡ at }
        ensures bytes { (a : ℕ) → byte_at self.new a ≡ byte_at self.old a }
        ensures len { byte_count self.new ≡ byte_count self.old }
        ensures image { IsImage self.new }
    {
        self.start = at;
    }

    /// The address at which the program starts.
    pub fn start(&self) -> u32
        ensures { result ≡ self.now.start }
    {
        self.start
    }

    /// The number of addresses that have a byte.
    #[tactic(auto, unfolding(crate::specs::Image::byte_at, crate::specs::Image::byte_count))]
    pub fn len(&self) -> usize
        ensures value { result ≡ byte_count self.now }
        ensures bound { result ≤ most_bytes }
    {
        self.len
    }

    /// Whether no address has a byte.
    pub fn is_empty(&self) -> bool
        ensures { IsTrue result ↔ (byte_count self.now ≡ 0) }
    {
        self.len() == 0
    }

    /// The byte at an address, where there is one.
    pub fn byte(&self, at: u32) -> Option<u8>
        ensures { result ≡ byte_at self.now at }
    {
        self.runs.find(at)
    }

    /// The bytes from an address on, up to the first address without one.
    #[tactic(auto, unfolding(crate::specs::Image::byte_at))]
    pub fn rest(&self, at: u32) -> &[u8]
        ensures there { (k : ℕ) → k < length result.now
            → byte_at self.now (at + k) ≡ slice_get result.now k }
        ensures end { byte_at self.now (at + length result.now) ≡ None }
    {
        self.runs.rest(at)
    }

    /// Writes the bytes at the addresses from `at` on over a room, which keeps what it has where there is none. It goes
    /// from part to part, so that no byte is looked up by itself.
    #[tactic(auto, unfolding(crate::specs::Image::byte_at))]
    pub fn fill(&self, at: u32, room: &mut [u8])
        ensures { room.new ≡ filled (byte_at self.now) at room.old }
    {
        self.runs.fill(at, room);
    }

    /// The least of `count` addresses from `at` on that has a byte, None where none of them has one.
    #[tactic(auto, unfolding(crate::specs::Image::byte_at))]
    pub fn first_taken(&self, at: u32, count: usize) -> Option<u32>
        requires some { 0 < count }
        requires fits { at + count ≤ 2 ^ 32 }
        ensures taken { IfSome result (IsLeastTaken (byte_at self.now) at count) }
        ensures free { IfNone result (IsFree (byte_at self.now) at count) }
    {
        let index = self.runs.locate(at);
        let next = self.runs.next_start(index);
        self.runs.first_taken(index, next, at, count)
    }

    /// The number of parts, the runs of consecutive addresses that are as long as they can be.
    #[tactic(auto, unfolding(crate::specs::Image::byte_at))]
    pub fn part_count(&self) -> usize
        ensures value { result ≡ length (parts self.now) }
        ensures all { (a : ℕ) → byte_at self.now a ≡ byte_among (parts self.now) a }
        ensures image { IsImage self.now }

        // An image is told by its bytes and its start.
        ensures same { (other : ProgramImage) → IsImage other → other.start ≡ self.now.start
            → ((a : ℕ) → byte_at other a ≡ byte_at self.now a) → other ≡ self.now }
    {
        self.runs.len()
    }

    /// The first address and the bytes of a part, the parts in ascending order.
    pub fn part(&self, index: usize) -> (u32, &[u8])
        requires { index < length (parts self.now) }
        ensures value { slice_get (parts self.now) index
            ≡ Some (record { at = result.0; bytes = result.1.now }) }
        ensures part { IsPart (byte_at self.now) result.0 result.1.now }
        ensures fits { result.0 + length result.1.now ≤ 2 ^ 32 }
    {
        let run = self.runs.get(index);
        (run.at(), run.bytes())
    }
}
