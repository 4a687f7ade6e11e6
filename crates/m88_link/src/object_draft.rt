//! An object of which not all lines came.
ghost use Rattle.std.specs.Prelude.{◌≡◌, ◌*◌, OnOk};
ghost use Rattle.m88_link.specs.Inside.Drafts.{TakesOrRefuses, bytes_step, define_step, head_step, headed, may_stand, is_whole, more_bytes, only_named, object_with, patch_step, section_with, with_section_settled, takes_head};

use crate::object::{Object, Place, Reloc, Section, Symbol};
use crate::row::SectionHead;
use crate::row_text::push_bytes;
use crate::text::LINE_BYTES;
use m88_base::{Listed, Name};
use std::alloc::{AllocError, Global};
use std::marker::Model;

/// A section with the bytes that came, and how many are missing.
#[derive(Drop)]
struct Filling {
    place: Place,
    line: u32,
    bytes: Vec<u8>,
    missing: u32,
}

impl Model for Filling {
    ghost use Rattle.m88_link.specs.Inside.Drafts.{Filled};

    ghost Value = { Filled };

    ghost view = { λ f. record {
      place = f.place;
      line = f.line;
      bytes = f.bytes.items;
      missing = f.missing;
    } };
}

/// An object of which not all lines came: its whole sections, the one whose bytes come, its symbols
/// and its relocations.
#[derive(Drop)]
pub struct Draft {
    name: Name,
    sections: Vec<Section>,
    filling: Option<Filling>,
    symbols: Vec<Symbol>,
    relocs: Vec<Reloc>,
}

impl Model for Draft {
    ghost use Rattle.m88_link.specs.Inside.Drafts.{BegunObject};

    ghost Value = { BegunObject };

    ghost view = { λ d. record {
      name = d.name;
      sections = d.sections.items;
      filling = d.filling;
      symbols = d.symbols.items;
      relocs = d.relocs.items;
    } };
}

impl Filling {
    /// A section of which only the head came.
    fn new(alloc: Global, head: SectionHead) -> Filling
        ensures { result ≡ headed head }
    {
        Filling {
            place: head.place,
            line: head.line,
            bytes: Vec::new(alloc),
            missing: head.len,
        }
    }

    /// Takes the digits of one line more: as many bytes as a line has, or those that are missing.
    #[tactic(auto, unfolding(crate::specs::Inside::Drafts::more_bytes))]
    fn more(&mut self, digits: &[u8]) -> Result<bool, AllocError>
        ensures { TakesOrRefuses result self.new (more_bytes digits.now self.old) }
    {
        let count = self.missing.min(LINE_BYTES as u32);
        if digits.len() != 2 * count as usize {
            return Ok(false);
        }
        if !push_bytes(&mut self.bytes, digits)? {
            return Ok(false);
        }
        self.missing -= count;
        Ok(true)
    }

    /// The section that the bytes so far make.
    fn into_section(self) -> Section
        ensures { result ≡ section_with self }
    {
        let Filling {
            place,
            bytes,
            line,
            ..
        } = self;
        Section {
            place,
            bytes: Listed::new(bytes),
            line,
        }
    }
}

impl Draft {
    /// An object of which only the name came.
    pub fn new(alloc: Global, name: Name) -> Draft
        ensures { result ≡ only_named name }
    {
        Draft {
            name,
            sections: Vec::new(alloc),
            filling: None,
            symbols: Vec::new(alloc),
            relocs: Vec::new(alloc),
        }
    }

    /// Whether text and data are there and no section has bytes to come.
    pub fn is_whole(&self) -> bool
        ensures { result ≡ is_whole self.now }
    {
        self.filling.is_none() && self.sections.len() >= 2
    }

    /// Whether a section with this head may begin.
    fn takes_head(&self, head: SectionHead) -> bool
        ensures { result ≡ takes_head self.now head }
    {
        self.filling.is_none()
            && self.symbols.is_empty()
            && self.relocs.is_empty()
            && is_next(self.sections.len(), head.place)
    }

    /// One section more, whole or to be filled.
    fn settle(&mut self, filling: Filling) -> Result<(), AllocError>
        ensures { OnOk result (self.new ≡ with_section_settled self.old filling) }
    {
        if filling.missing == 0 {
            self.sections.push(filling.into_section())?;
            self.filling = None;
        } else {
            self.filling = Some(filling);
        }
        Ok(())
    }

    /// The head of a section.
    #[tactic(auto, unfolding(crate::specs::Inside::Drafts::head_step))]
    pub fn head(&mut self, alloc: Global, head: SectionHead) -> Result<bool, AllocError>
        ensures { TakesOrRefuses result self.new (head_step head self.old) }
    {
        if !self.takes_head(head) {
            return Ok(false);
        }
        self.settle(Filling::new(alloc, head))?;
        Ok(true)
    }

    /// The digits of bytes of a section.
    #[tactic(auto, unfolding(crate::specs::Inside::Drafts::bytes_step))]
    pub fn bytes(&mut self, digits: &[u8]) -> Result<bool, AllocError>
        ensures { TakesOrRefuses result self.new (bytes_step digits.now self.old) }
    {
        let Some(mut filling) = self.filling.take() else {
            return Ok(false);
        };
        if !filling.more(digits)? {
            return Ok(false);
        }
        self.settle(filling)?;
        Ok(true)
    }

    /// A symbol.
    #[tactic(auto, unfolding(crate::specs::Inside::Drafts::define_step))]
    pub fn define(&mut self, symbol: Symbol) -> Result<bool, AllocError>
        ensures { TakesOrRefuses result self.new (define_step symbol self.old) }
    {
        if !(self.is_whole() && self.relocs.is_empty()) {
            return Ok(false);
        }
        self.symbols.push(symbol)?;
        Ok(true)
    }

    /// A relocation.
    #[tactic(auto, unfolding(crate::specs::Inside::Drafts::patch_step))]
    pub fn patch(&mut self, reloc: Reloc) -> Result<bool, AllocError>
        ensures { TakesOrRefuses result self.new (patch_step reloc self.old) }
    {
        if !self.is_whole() {
            return Ok(false);
        }
        self.relocs.push(reloc)?;
        Ok(true)
    }

    /// The object that the lines so far make.
    pub fn into_object(self) -> Object
        ensures { result ≡ object_with self }
    {
        let Draft {
            name,
            sections,
            symbols,
            relocs,
            ..
        } = self;
        Object {
            name,
            sections: Listed::new(sections),
            symbols: Listed::new(symbols),
            relocs: Listed::new(relocs),
        }
    }
}

/// Whether a section may stand behind as many others.
fn is_next(sections: usize, place: Place) -> bool
    ensures { result ≡ may_stand sections place }
{
    match place {
        Place::Text => sections == 0,
        Place::DataSection => sections == 1,
        Place::At(_) => sections >= 2,
    }
}
