//! The bytes of sections with their relocations carried out, and the image of them.
ghost use Rattle.std.specs.Prelude.{◌≡◌, ◌∷◌, ℕ, [], ◌+◌, ◌++◌, ◌^◌, ◌≤◌, All, IfOk, OnErr, OnOk, flat_map, length, map};
ghost use Rattle.m88_base.specs.Found.{IsFree, PutsBytes};
ghost use Rattle.m88_base.specs.Image.{byte_at, byte_count, most_bytes};
ghost use Rattle.m88_base.specs.Placed.{byte_among, count_among};
ghost use Rattle.m88_link.specs.Bases.{base_at};
ghost use Rattle.m88_link.specs.Inside.Carried.{AreAlone, HasWord, unpatched, patched_spot};
ghost use Rattle.m88_link.specs.Inside.Findings.{EndsAtFault, with_uses};
ghost use Rattle.m88_link.specs.Inside.Lent.{own_or_lent};
ghost use Rattle.m88_link.specs.Inside.Resolved.{all_uses, carried_known, carried_spots, uses_in};
ghost use Rattle.m88_link.specs.Refusal.{too_far, undefined};
ghost use Rattle.m88_link.specs.Sound.{IsPatchIn};

use crate::bases::Placement;
use crate::fault::{LinkFault, OUT_OF_MEMORY};
use crate::findings::Findings;
use crate::object::{Reloc, Section};
use crate::patch::patch;
use crate::resolve::{checked_target, own_symbols};
use crate::table::SymbolTable;
use m88_base::{Image, ImageFault};
use std::alloc::{AllocError, Global};
use std::marker::Model;

/// Bytes at consecutive addresses, none past 0xFFFFFFFF: those that an object has, or a copy of them where words were
/// patched.
#[derive(Drop)]
pub struct Spot<'a> {
    at: u32,
    own: Vec<u8>,
    lent: &'a [u8],
}

impl<'a> Model for Spot<'a> {
    ghost use Rattle.std.specs.Prelude.{◌+◌, ◌^◌, ◌≤◌, length};
    ghost use Rattle.m88_base.specs.Placed.{Placed};
    ghost use Rattle.m88_link.specs.Inside.Lent.{own_or_lent};

    ghost Value = { Placed };

    ghost view = { λ spot. record { at = spot.at; bytes = own_or_lent spot.own.items spot.lent.now } };

    ghost invariant = { λ spot. spot.at + length (own_or_lent spot.own.items spot.lent.now) ≤ 2 ^ 32 };
}

/// Copies bytes that are lent, where there are none of one's own yet.
fn copied(alloc: Global, own: &mut Vec<u8>, lent: &[u8]) -> Result<(), AllocError>
    ensures ok { OnOk result (own.new.items ≡ own_or_lent own.old.items lent.now) }
    ensures err { OnErr result (own.new.items ≡ own.old.items) }
{
    if own.is_empty() {
        *own = Vec::from_slice(alloc, lent)?;
    }
    Ok(())
}

impl Spot<'_> {
    /// The address of the first byte.
    fn at(&self) -> u32
        ensures { result ≡ self.now.at }
    {
        self.at
    }

    /// The bytes in order of their addresses.
    fn bytes(&self) -> &[u8]
        ensures value { result.now ≡ self.now.bytes }
        ensures fit { self.now.at + length self.now.bytes ≤ 2 ^ 32 }
    {
        if self.own.is_empty() {
            self.lent
        } else {
            self.own.as_slice()
        }
    }

    /// Patches the word of a relocation for a target.
    #[tactic(auto, using(crate::proofs::Carried::patched_length, crate::proofs::Carried::own_bytes))]
    fn patch(&mut self, alloc: Global, reloc: &Reloc, target: u32) -> Result<(), AllocError>
        requires { reloc.now.offset + 4 ≤ length self.old.bytes }
        ensures { OnOk result (self.new ≡ patched_spot reloc.now target self.old) }
    {
        copied(alloc, &mut self.own, self.lent)?;
        let at = self.at + reloc.offset;
        patch(
            self.own.as_mut_slice(),
            reloc.offset as usize,
            reloc.kind,
            target,
            at,
        );
        Ok(())
    }
}

/// The bytes of the sections of all objects, in order, with those relocations carried out that can be; or the first
/// name that means nothing.
pub fn spots<'a>(
    alloc: Global,
    findings: &mut Findings,
    placements: &'a [Placement<'_>],
    globals: &SymbolTable,
) -> Result<Vec<Spot<'a>>, LinkFault>
    ensures spots { IfOk result (λ spots. spots.items
        ≡ flat_map (carried_spots globals.now) placements.now) }
    ensures ends { EndsAtFault findings.old.goes_on
        (undefined (flat_map (all_uses globals.now) placements.now))
        (findings.new ≡ with_uses findings.old
        (undefined (flat_map (all_uses globals.now) placements.now))
        (too_far (flat_map (all_uses globals.now) placements.now))) result }
{
    let mut spots = Vec::new(alloc);
    for placement in placements {
        let own = object_spots(alloc, findings, placement, globals)?;
        spots = joined(spots, own)?;
    }
    Ok(spots)
}

/// Two lists as one. Where nothing stands in the first, the second isn't copied: most programs are one object.
fn joined<'a>(
    mut front: Vec<Spot<'a>>,
    mut back: Vec<Spot<'a>>,
) -> Result<Vec<Spot<'a>>, AllocError>
    ensures { IfOk result (λ v. v.items ≡ front.entry.items ++ back.entry.items) }
{
    if front.is_empty() {
        return Ok(back);
    }
    front.append(&mut back)?;
    Ok(front)
}

/// The bytes of the sections of an object with those relocations carried out that can be; or the first name that
/// means nothing.
fn object_spots<'a>(
    alloc: Global,
    findings: &mut Findings,
    placement: &'a Placement<'_>,
    globals: &SymbolTable,
) -> Result<Vec<Spot<'a>>, LinkFault>
    ensures spots { IfOk result (λ spots. spots.items ≡ carried_spots globals.now placement.now) }
    ensures ends { EndsAtFault findings.old.goes_on (undefined (all_uses globals.now placement.now))
        (findings.new ≡ with_uses findings.old (undefined (all_uses globals.now placement.now))
        (too_far (all_uses globals.now placement.now))) result }
{
    let mut spots = bare_spots(alloc, placement, placement.sections())?;
    let own = own_symbols(alloc, placement.symbols())?;
    match carry_out(
        alloc,
        &mut spots,
        findings,
        globals,
        placement,
        &own,
        placement.relocs(),
    ) {
        Ok(()) => Ok(spots),
        Err(fault) => Err(fault),
    }
}

/// The bytes of sections of an object as the object has them.
fn bare_spots<'a>(
    alloc: Global,
    placement: &Placement<'_>,
    sections: &'a [Section],
) -> Result<Vec<Spot<'a>>, AllocError>
    requires { All (λ x. base_at placement.now x.place + length x.bytes ≤ 2 ^ 32) sections.now }
    ensures { IfOk result (λ spots. spots.items ≡ map (unpatched placement.now) sections.now) }
{
    let mut spots = Vec::with_capacity(alloc, sections.len())?;
    for section in sections {
        spots.push(Spot {
            at: placement.base_at(section.place),
            own: Vec::new(alloc),
            lent: section.bytes.as_slice(),
        })?;
    }
    Ok(spots)
}

/// Carries out relocations of an object on its sections, those that can be.
fn carry_out(
    alloc: Global,
    spots: &mut Vec<Spot<'_>>,
    findings: &mut Findings,
    globals: &SymbolTable,
    placement: &Placement,
    own: &SymbolTable,
    relocs: &[Reloc],
) -> Result<(), LinkFault>
    requires own { own.now ≡ placement.now.part.symbols }
    requires sound { All (IsPatchIn placement.now.part.sections) relocs.now }
    requires words { All (HasWord spots.old.items) relocs.now }
    ensures spots { OnOk result (spots.new.items
        ≡ carried_known globals.now placement.now relocs.now spots.old.items) }
    ensures ends { EndsAtFault findings.old.goes_on
        (undefined (uses_in globals.now placement.now relocs.now))
        (findings.new ≡ with_uses findings.old
        (undefined (uses_in globals.now placement.now relocs.now))
        (too_far (uses_in globals.now placement.now relocs.now))) result }
{
    for reloc in relocs {
        // No `?`: the proof of this loop isn't found with it.
        match carry(alloc, spots, findings, globals, placement, own, reloc) {
            Ok(()) => {}
            Err(fault) => return Err(fault),
        }
    }
    Ok(())
}

/// Carries out a relocation of an object on its sections, where it can be.
fn carry(
    alloc: Global,
    spots: &mut Vec<Spot<'_>>,
    findings: &mut Findings,
    globals: &SymbolTable,
    placement: &Placement,
    own: &SymbolTable,
    reloc: &Reloc,
) -> Result<(), LinkFault>
    requires own { own.now ≡ placement.now.part.symbols }
    requires sound { IsPatchIn placement.now.part.sections reloc.now }
    requires word { HasWord spots.old.items reloc.now }
    ensures spots { OnOk result (spots.new.items
        ≡ carried_known globals.now placement.now (reloc.now ∷ []) spots.old.items) }
    ensures ends { EndsAtFault findings.old.goes_on
        (undefined (uses_in globals.now placement.now (reloc.now ∷ [])))
        (findings.new ≡ with_uses findings.old
        (undefined (uses_in globals.now placement.now (reloc.now ∷ [])))
        (too_far (uses_in globals.now placement.now (reloc.now ∷ [])))) result }
{
    match checked_target(findings, globals, placement, own, reloc) {
        Ok(Some(target)) => {
            let spot = &mut spots[reloc.section as usize];
            match spot.patch(alloc, reloc, target) {
                Ok(()) => Ok(()),
                Err(_) => Err(OUT_OF_MEMORY),
            }
        }
        Ok(None) => Ok(()),
        Err(fault) => Err(fault),
    }
}

/// The image of sections, no two of which have one address.
pub fn image_of(alloc: Global, mut spots: Vec<Spot<'_>>) -> Result<Image, AllocError>
    requires alone { AreAlone spots.items }
    requires fit { count_among spots.items ≤ most_bytes }
    ensures bytes { IfOk result (λ image. (a : ℕ)
        → byte_at image a ≡ byte_among spots.entry.items a) }
    ensures count { IfOk result (λ image. byte_count image ≡ count_among spots.entry.items) }
{
    spots.sort_unstable_by_key(|spot| spot.at());
    let mut image = Image::new(alloc);
    put(&mut image, &spots)?;
    Ok(image)
}

/// Puts the bytes of sections, no two of which have one address, into an empty image.
fn put(image: &mut Image, spots: &[Spot<'_>]) -> Result<(), AllocError>
    requires empty { (a : ℕ) → byte_at image.old a ≡ byte_among [] a }
    requires none { byte_count image.old ≡ 0 }
    requires alone { AreAlone spots.now }
    requires fit { count_among spots.now ≤ most_bytes }
    ensures bytes { OnOk result ((a : ℕ) → byte_at image.new a ≡ byte_among spots.now a) }
    ensures count { OnOk result (byte_count image.new ≡ count_among spots.now) }
    ensures start { image.new.start ≡ image.old.start }
{
    for spot in spots {
        put_one(image, spot)?;
    }
    Ok(())
}

/// Puts the bytes of a section into an image that has room for them and none at their addresses.
fn put_one(image: &mut Image, spot: &Spot<'_>) -> Result<(), AllocError>
    requires room { byte_count image.old + length spot.now.bytes ≤ most_bytes }
    requires free { IsFree (byte_at image.old) spot.now.at (length spot.now.bytes) }
    ensures bytes { OnOk result
        (PutsBytes (byte_at image.old) (byte_at image.new) spot.now.at spot.now.bytes) }
    ensures count { OnOk result
        (byte_count image.new ≡ byte_count image.old + length spot.now.bytes) }
    ensures start { image.new.start ≡ image.old.start }
{
    match image.add(spot.at(), spot.bytes()) {
        Ok(()) => Ok(()),
        Err(ImageFault::Memory) => Err(AllocError),
        Err(_) => unreachable!(),
    }
}
