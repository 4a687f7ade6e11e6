//! Words that were read from an image, kept by their addresses.
ghost use Rattle.std.specs.Prelude.{◌≡◌, IfOk, IfSome};
ghost use Rattle.m88_base.specs.Image.{ProgramImage};
ghost use Rattle.m88_mem.specs.DataBus.{image_bus};
ghost use Rattle.m88_mem.specs.Inside.Reads.{AreReads};

use m88_base::NoMemory;
use std::alloc::Global;
use std::marker::Model;

/// How many are kept at most: one for the addresses of words that are so many words apart.
const READS: usize = 1024;

/// A word that was read, with zeros for the bytes that the image lacks, and its byte address.
#[derive(Clone, Copy, Debug)]
pub(crate) struct Read {
    pub addr: u32,
    pub word: u32,
}

/// Words by the places of their addresses.
#[derive(Drop, Debug)]
pub(crate) struct KeptReads {
    reads: Vec<Option<Read>>,
}

impl Model for KeptReads {
    ghost use Rattle.std.specs.Prelude.{◌≡◌, List, Option, length};
    ghost use Rattle.m88_mem.specs.declared.reads.Read.{Read};

    ghost Value = { List (Option Read) };

    ghost use Rattle.m88_mem.specs.Inside.Reads.{read_count};

    ghost view = { λ kept. kept.reads.items };

    ghost invariant = { λ kept. length kept.reads.items ≡ read_count };
}

impl KeptReads {
    /// No word is kept.
    pub fn new(alloc: Global) -> Result<KeptReads, NoMemory>
        ensures { IfOk result (λ kept. (image : ProgramImage) → AreReads image kept) }
    {
        let reads = vec![in alloc; None; READS]?;
        Ok(KeptReads { reads })
    }

    /// The word that is kept of an address, if one is.
    pub fn word(&self, addr: u32) -> Option<u32>
        ensures { IfSome result (λ word. (image : ProgramImage) → AreReads image self.now
            → word ≡ image_bus image addr) }
    {
        let read = self.reads[(addr / 4) as usize % READS]?;
        if read.addr == addr {
            Some(read.word)
        } else {
            None
        }
    }

    /// Keeps a word in place of the one that has its place.
    pub fn keep(&mut self, read: Read)
        ensures { (image : ProgramImage) → read.word ≡ image_bus image read.addr
            → AreReads image self.old → AreReads image self.new }
    {
        self.reads[(read.addr / 4) as usize % READS] = Some(read);
    }
}
