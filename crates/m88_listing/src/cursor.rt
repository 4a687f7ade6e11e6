//! The sections of a module, statement by statement.
ghost use Rattle.std.specs.Prelude.{◌≡◌, ◌+◌, ◌≤◌, IfOk, OnOk};
ghost use Rattle.m88_base.specs.Image.{most_bytes};
ghost use Rattle.m88_asm.specs.Counters.{at_begin, at_section, offset_here, place_here, with_length};
ghost use Rattle.m88_listing.specs.Inside.Slots.{counters_in};

use m88_parse::Body;
use std::alloc::{AllocError, Global};
use std::marker::Model;

/// A section so far: the number that its alignment counts from, and the number of its bytes.
#[derive(Clone, Copy, PartialEq, Eq, Debug)]
pub(crate) struct Part {
    pub start: u32,
    pub len: usize,
}

/// The sections of a module so far, and the one that stands.
#[derive(Drop)]
pub(crate) struct Cursor {
    parts: Vec<Part>,
    here: usize,
}

impl Model for Cursor {
    ghost use Rattle.std.specs.Prelude.{◌≤◌, ◌<◌, length};
    ghost use Rattle.m88_listing.specs.Inside.Parts.{Parts};

    ghost Value = { Parts };

    ghost view = { λ c. record { parts = c.parts.items; here = c.here } };

    ghost invariant = { λ c. (2 ≤ length c.parts.items) × (c.here < length c.parts.items) };
}

impl Cursor {
    /// Before the first statement of a module.
    pub fn new(alloc: Global) -> Result<Cursor, AllocError>
        ensures { IfOk result (λ c. counters_in c ≡ at_begin) }
    {
        let mut parts = Vec::new(alloc);
        parts.push(Part { start: 0, len: 0 })?;
        parts.push(Part { start: 0, len: 0 })?;
        Ok(Cursor { parts, here: 0 })
    }

    /// Makes the section stand in which a body stands.
    pub fn enter(&mut self, body: &Body) -> Result<(), AllocError>
        ensures { OnOk result (counters_in self.new ≡ at_section (counters_in self.old) body.now) }
    {
        match body {
            Body::Text => {
                self.here = 0;
                Ok(())
            }
            Body::DataSection => {
                self.here = 1;
                Ok(())
            }
            Body::At(address) => {
                let number = self.parts.len();
                self.parts.push(Part {
                    start: *address,
                    len: 0,
                })?;
                self.here = number;
                Ok(())
            }
            _ => Ok(()),
        }
    }

    /// The number of the section that stands.
    pub fn here(&self) -> usize
        ensures { result ≡ self.now.here }
    {
        self.here
    }

    /// The number of bytes of the section that stands.
    pub fn offset(&self) -> usize
        ensures { result ≡ offset_here (counters_in self.now) }
    {
        self.parts[self.here].len
    }

    /// The place that alignment goes by.
    pub fn place(&self) -> usize
        requires { offset_here (counters_in self.now) ≤ most_bytes }
        ensures { result ≡ place_here (counters_in self.now) }
    {
        let part = &self.parts[self.here];
        part.start as usize + part.len
    }

    /// Goes on behind so many bytes.
    pub fn advance(&mut self, len: usize)
        requires { offset_here (counters_in self.old) + len ≤ most_bytes }
        ensures { counters_in self.new ≡ with_length (counters_in self.old) len }
    {
        let part = self.parts[self.here];
        self.parts[self.here] = Part {
            start: part.start,
            len: part.len + len,
        };
    }
}
