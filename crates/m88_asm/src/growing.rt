//! A section that still grows.
ghost use Rattle.std.specs.Prelude.{◌≡◌, ◌+◌, [], length, replicate, OnOk};
ghost use Rattle.m88_link.specs.Sound.{HasRoom, origin};
ghost use Rattle.m88_asm.specs.Inside.Drafts.{with_bytes};

use m88_base::Listed;
use m88_link::{Place, Section};
use std::alloc::{AllocError, Global};
use std::marker::Model;

/// A section whose bytes are still to come; it always has the room that a section may have.
#[derive(Drop)]
pub(crate) struct Growing {
    place: Place,
    bytes: Vec<u8>,
    line: u32,
}

impl Model for Growing {
    ghost use Rattle.m88_link.specs.declared.object.Section.{Section as SectionValue};
    ghost use Rattle.m88_link.specs.Sound.{HasRoom};

    ghost Value = { SectionValue };

    ghost view = { λ g. record { place = g.place; bytes = g.bytes.items; line = g.line } };

    ghost invariant = { λ g. HasRoom
        (record { place = g.place; bytes = g.bytes.items; line = g.line }) };
}

impl Growing {
    /// A section without bytes.
    pub fn new(alloc: Global, place: Place, line: u32) -> Growing
        ensures { result ≡ record { place = place; bytes = []; line = line } }
    {
        Growing {
            place,
            bytes: Vec::new(alloc),
            line,
        }
    }

    /// The number of bytes so far.
    pub fn len(&self) -> usize
        ensures value { result ≡ length self.now.bytes }
        ensures room { HasRoom self.now }
    {
        self.bytes.len()
    }

    /// The place that alignment goes by: an address in a section that has one, else an offset.
    pub fn place(&self) -> usize
        ensures { result ≡ origin self.now.place + length self.now.bytes }
    {
        let origin = match self.place {
            Place::Text | Place::DataSection => 0,
            Place::At(address) => address as usize,
        };
        origin + self.bytes.len()
    }

    /// Puts bytes behind its own.
    pub fn push_all(&mut self, bytes: &[u8]) -> Result<(), AllocError>
        requires { HasRoom (with_bytes self.old bytes.now) }
        ensures { OnOk result (self.new ≡ with_bytes self.old bytes.now) }
    {
        self.bytes.extend_from_slice(bytes)?;
        Ok(())
    }

    /// Puts a list of bytes behind its own. Where it has none, the list isn't copied.
    pub fn push_list(&mut self, bytes: Vec<u8>) -> Result<(), AllocError>
        requires { HasRoom (with_bytes self.old bytes.items) }
        ensures { OnOk result (self.new ≡ with_bytes self.old bytes.items) }
    {
        if self.bytes.is_empty() {
            self.bytes = bytes;
            return Ok(());
        }
        self.push_all(&bytes)
    }

    /// Puts zero bytes behind its own.
    pub fn push_zeros(&mut self, n: usize) -> Result<(), AllocError>
        requires { HasRoom (with_bytes self.old (replicate n 0)) }
        ensures { OnOk result (self.new ≡ with_bytes self.old (replicate n 0)) }
    {
        let len = self.bytes.len();
        self.bytes.resize(len + n, 0)?;
        Ok(())
    }

    /// The section as it stands.
    pub fn into_section(self) -> Section
        ensures value { result ≡ self }
        ensures room { HasRoom result }
    {
        Section {
            place: self.place,
            bytes: Listed::new(self.bytes),
            line: self.line,
        }
    }
}
