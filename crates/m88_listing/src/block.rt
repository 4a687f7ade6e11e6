//! A block of bytes that are appended to a text together.
ghost use Rattle.std.specs.Prelude.{◌≡◌, ◌+◌, ◌≤◌, ◌++◌, [], length, take, OnOk};
ghost use Rattle.m88_listing.specs.Inside.Pushed.{HasRoomForLine};

use std::alloc::AllocError;
use std::marker::Model;

/// How many bytes a block has room for.
const ROOM: usize = 1024;

/// How many bytes there is room for once room was made, as many as a short line takes behind its columns and more.
const MOST_PUT: usize = 128;

/// The bytes that stand behind a text until they are appended to it.
#[derive(Drop)]
pub(crate) struct Block {
    bytes: [u8; ROOM],
    len: usize,
}

impl Model for Block {
    ghost use Rattle.std.specs.Prelude.{◌≤◌, ℕ, List, take};

    ghost Value = { List ℕ };

    ghost view = { λ b. take b.len b.bytes };

    ghost invariant = { λ b. b.len ≤ 1024 };
}

impl Block {
    /// A block without bytes.
    pub fn new() -> Block
        ensures { result ≡ [] }
    {
        Block {
            bytes: [0; ROOM],
            len: 0,
        }
    }

    /// Puts the first of some bytes behind those that stand in the block, so many of them. There is room for all.
    pub fn put<const N: usize>(&mut self, bytes: &[u8; N], count: usize)
        requires room { length self.old + length bytes.now ≤ 1024 }
        requires some { count ≤ length bytes.now }
        ensures { self.new ≡ self.old ++ take count bytes.now }
    {
        let end = self.len + N;
        replace(&mut self.bytes[self.len..end], bytes);
        self.len += count;
    }

    /// Appends the bytes of the block to the text before it, where the block is nearly full.
    pub fn make_room(&mut self, text: &mut Vec<u8>) -> Result<(), AllocError>
        ensures same { OnOk result
            (text.new.items ++ self.new ≡ text.old.items ++ self.old) }
        ensures room { OnOk result (HasRoomForLine self.new) }
    {
        if self.len + MOST_PUT > ROOM {
            self.append_to(text)?;
        }
        Ok(())
    }

    /// Appends the bytes of the block to the text before it.
    pub fn append_to(&mut self, text: &mut Vec<u8>) -> Result<(), AllocError>
        ensures text { OnOk result (text.new.items ≡ text.old.items ++ self.old) }
        ensures none { OnOk result (self.new ≡ []) }
    {
        if self.len == 0 {
            return Ok(());
        }
        let (bytes, _) = self.bytes.split_at(self.len);
        text.extend_from_slice(bytes)?;
        self.len = 0;
        Ok(())
    }
}

/// Puts bytes in the place of as many.
fn replace<const N: usize>(place: &mut [u8], bytes: &[u8; N])
    requires { length place.old ≡ N }
    ensures { place.new ≡ bytes.now }
{
    let Some(all) = place.first_chunk_mut::<N>() else {
        unreachable!();
    };
    *all = *bytes;
}
