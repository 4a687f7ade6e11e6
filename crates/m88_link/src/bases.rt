//! Where the text and the data of each object stand.
ghost use Rattle.std.specs.Prelude.{◌≡◌, ◌+◌, ◌*◌, ◌^◌, length, ◌<◌, ◌≤◌, ◌↔◌, All, IfOk, IsTrue, MatchOption};
ghost use Rattle.m88_link.specs.Bases.{base_at, base_of, first_text, section_size, stood, text_end};
ghost use Rattle.m88_link.specs.Sizes.{object_size, sections_size, total_size};
ghost use Rattle.m88_base.specs.Image.{most_bytes};
ghost use Rattle.m88_link.specs.Sound.{IsPatchIn, IsSound};
ghost use Rattle.m88_link.specs.Symbols.{placed_value};

use crate::object::{Object, Place, Reloc, Section, Symbol};
use m88_base::{FIRST_TEXT, MOST_BYTES, Name, PAGE_BYTES};
use std::alloc::{AllocError, Global};
use std::marker::Model;

/// The alignment of each object's text and data, in bytes.
const PART: u32 = 8;

/// A sound object with the addresses of its text and its data, neither of which reaches past 0xFFFFFFFF.
#[derive(Drop)]
pub struct Placement<'a> {
    object: &'a Object,
    text_at: u32,
    data_at: u32,
}

impl<'a> Model for Placement<'a> {
    ghost use Rattle.std.specs.Prelude.{◌+◌, ◌^◌, ◌≤◌};
    ghost use Rattle.m88_link.specs.Bases.{Placement as PlacementValue, section_size};
    ghost use Rattle.m88_link.specs.Sound.{IsSound};
    ghost use Rattle.m88_link.specs.declared.object.Object.{Object as ObjectValue};

    ghost Value = { PlacementValue ObjectValue };

    ghost view = { λ p. record {
      part = p.object.now;
      text_at = p.text_at;
      data_at = p.data_at;
    } };

    ghost invariant = { λ p. IsSound p.object.now
        × (p.text_at + section_size 0 p.object.now ≤ 2 ^ 32)
        × (p.data_at + section_size 1 p.object.now ≤ 2 ^ 32) };
}

impl Placement<'_> {
    /// The name of the object.
    pub fn name(&self) -> Name
        ensures { result ≡ self.now.part.name }
    {
        self.object.name
    }

    /// The sections of the object.
    #[tactic(auto, using(crate::proofs::Stood::sections_fit))]
    pub(crate) fn sections(&self) -> &[Section]
        ensures value { result.now ≡ self.now.part.sections }
        ensures sound { IsSound self.now.part }
        ensures fit { All (λ x. base_at self.now x.place + length x.bytes ≤ 2 ^ 32) result.now }
    {
        self.object.sections.as_slice()
    }

    /// The symbols of the object.
    pub fn symbols(&self) -> &[Symbol]
        ensures value { result.now ≡ self.now.part.symbols }
        ensures sound { IsSound self.now.part }
    {
        self.object.symbols.as_slice()
    }

    /// The relocations of the object.
    pub(crate) fn relocs(&self) -> &[Reloc]
        ensures value { result.now ≡ self.now.part.relocs }
        ensures sound { IsSound self.now.part }
    {
        self.object.relocs.as_slice()
    }

    /// The address of a section's first byte, by its place.
    pub(crate) fn base_at(&self, place: Place) -> u32
        ensures { result ≡ base_at self.now place }
    {
        match place {
            Place::Text => self.text_at,
            Place::DataSection => self.data_at,
            Place::At(at) => at,
        }
    }

    /// The address of the first byte of a section, 0 where there is no such section.
    pub fn base(&self, index: usize) -> u32
        ensures { result ≡ base_of self.now index }
    {
        match self.object.sections.as_slice().get(index) {
            Some(section) => self.base_at(section.place),
            None => 0,
        }
    }

    /// The address of the word of a relocation of the object.
    #[tactic(auto, using(crate::proofs::Stood::word_fits))]
    pub(crate) fn address(&self, reloc: &Reloc) -> u32
        requires { IsPatchIn self.now.part.sections reloc.now }
        ensures { result ≡ base_of self.now reloc.now.section + reloc.now.offset }
    {
        // Reading a field brings what every placement keeps to the proof: the sum fits.
        let _ = &self.object;
        self.base(reloc.section as usize) + reloc.offset
    }

    /// The value of a symbol of the object where that is linked, by the section and the value of its definition.
    pub fn value(&self, section: Option<u32>, value: u32) -> u32
        ensures { result ≡ placed_value (base_of self.now) section value }
    {
        match section {
            Some(index) => self.base(index as usize).wrapping_add(value),
            None => value,
        }
    }
}

/// Whether the objects have at most 1,048,576 bytes.
pub(crate) fn fit(objects: &[Object]) -> bool
    ensures { IsTrue result ↔ (total_size objects.now ≤ most_bytes) }
{
    let mut room = MOST_BYTES;
    for object in objects {
        match room_beside(object.sections.as_slice(), room) {
            Some(left) => room = left,
            None => return false,
        }
    }
    true
}

/// What the bytes of sections leave of a room for bytes; None where they don't fit it.
fn room_beside(sections: &[Section], room: usize) -> Option<usize>
    ensures { MatchOption result (room < sections_size sections.now)
        (λ left. left + sections_size sections.now ≡ room) }
{
    let mut left = room;
    for section in sections {
        left = left.checked_sub(section.bytes.as_slice().len())?;
    }
    Some(left)
}

/// The number of bytes of a section, 0 where there is no such section.
fn section_size(object: &Object, index: usize) -> usize
    ensures value { result ≡ section_size index object.now }
    ensures part { result ≤ object_size object.now }
{
    match object.sections.as_slice().get(index) {
        Some(section) => section.bytes.as_slice().len(),
        None => 0,
    }
}

/// The end of the text of all objects.
#[tactic(auto, using(crate::proofs::Stood::text_end_more, crate::proofs::Stood::sizes_fit))]
fn text_end(objects: &[Object]) -> u32
    requires { total_size objects.now ≤ most_bytes }
    ensures value { result ≡ text_end section_size first_text objects.now }
    ensures bound { result ≤ first_text + 8 * most_bytes }
{
    let mut end = FIRST_TEXT;
    for object in objects {
        end = end.next_multiple_of(PART) + section_size(object, 0) as u32;
    }
    end
}

/// The objects where they are linked: each text at the next multiple of 8 from 0x00001000 on, and each data so from the
/// first page behind all text on.
#[tactic(auto, using(crate::proofs::Stood::stood_more, crate::proofs::Stood::sizes_fit))]
pub fn stand<'a>(alloc: Global, objects: &'a [Object]) -> Result<Vec<Placement<'a>>, AllocError>
    requires sound { All IsSound objects.now }
    requires size { total_size objects.now ≤ most_bytes }
    ensures { IfOk result (λ placements. placements.items ≡ stood section_size objects.now) }
{
    let mut placements = Vec::new(alloc);
    let mut text_at = FIRST_TEXT;
    let mut data_at = text_end(objects).next_multiple_of(PAGE_BYTES);
    for object in objects {
        text_at = text_at.next_multiple_of(PART);
        data_at = data_at.next_multiple_of(PART);
        placements.push(Placement {
            object,
            text_at,
            data_at,
        })?;
        text_at += section_size(object, 0) as u32;
        data_at += section_size(object, 1) as u32;
    }
    Ok(placements)
}
