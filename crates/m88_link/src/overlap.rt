//! The rooms that sections take, and the least address that two of them have.
ghost use Rattle.std.specs.Prelude.{◌≡◌, ◌+◌, ◌^◌, ◌≤◌, ◌⊎◌, ◌++◌, All, IfErr, IfOk, MatchOption, MatchResult, OnOk, option_copied, flat_map, length, map, slice_get, filter};
ghost use Rattle.std.specs.List.Sorted.{IsNonDecreasingBy};
ghost use Rattle.m88_link.specs.Bases.{base_at};
ghost use Rattle.m88_link.specs.Faults.{memory_fault};
ghost use Rattle.m88_link.specs.Layout.{extent, extents_of};
ghost use Rattle.m88_link.specs.Inside.Overlap.{IsLeastDouble};
ghost use Rattle.m88_link.specs.Refusal.{AreDisjoint, IsOverlap, covers};

use crate::bases::Placement;
use crate::fault::{LinkFault, LinkKind};
use crate::object::Section;
use std::alloc::{AllocError, Global};
use std::marker::Model;

/// The addresses that a section takes, none past 0xFFFFFFFF, and the line that opened it.
#[derive(Drop)]
struct Extent {
    at: u32,
    len: usize,
    line: u32,
}

impl Model for Extent {
    ghost use Rattle.std.specs.Prelude.{◌+◌, ◌^◌, ◌≤◌};
    ghost use Rattle.m88_link.specs.Layout.{Extent as ExtentValue};

    ghost Value = { ExtentValue };

    ghost view = { λ extent. record { at = extent.at; len = extent.len; line = extent.line } };

    ghost invariant = { λ extent. extent.at + extent.len ≤ 2 ^ 32 };
}

impl Extent {
    /// The first address.
    fn at(&self) -> u32
        ensures { result ≡ self.now.at }
    {
        self.at
    }

    /// The line that opened the section.
    fn line(&self) -> u32
        ensures { result ≡ self.now.line }
    {
        self.line
    }

    /// The number of addresses.
    fn len(&self) -> usize
        ensures { result ≡ self.now.len }
    {
        self.len
    }

    /// The address behind the last one.
    fn end(&self) -> usize
        ensures value { result ≡ self.now.at + self.now.len }
        ensures bound { result ≤ 2 ^ 32 }
    {
        self.at as usize + self.len
    }

    /// Whether an address is one of them.
    fn covers(&self, at: u32) -> bool
        ensures { result ≡ covers at self.now }
    {
        self.at <= at && (at as usize) < self.end()
    }
}

/// The rooms of all sections, in the order of objects and section numbers.
fn extents(alloc: Global, placements: &[Placement]) -> Result<Vec<Extent>, AllocError>
    ensures { IfOk result (λ extents. extents.items ≡ flat_map extents_of placements.now) }
{
    let mut extents = Vec::new(alloc);
    for placement in placements {
        push_extents(&mut extents, placement, placement.sections())?;
    }
    Ok(extents)
}

/// Appends the rooms of sections of an object.
fn push_extents(
    extents: &mut Vec<Extent>,
    placement: &Placement,
    sections: &[Section],
) -> Result<(), AllocError>
    requires { All (λ x. base_at placement.now x.place + length x.bytes ≤ 2 ^ 32) sections.now }
    ensures { OnOk result
        (extents.new.items ≡ extents.old.items ++ map (extent placement.now) sections.now) }
{
    for section in sections {
        extents.push(Extent {
            at: placement.base_at(section.place),
            len: section.bytes.as_slice().len(),
            line: section.line,
        })?;
    }
    Ok(())
}

/// The least address that two of the sections have, which are in ascending order.
fn first_double(extents: &[Extent]) -> Option<u32>
    requires { IsNonDecreasingBy (λ e. e.at) extents.now }
    ensures { MatchOption result (AreDisjoint extents.now) (IsLeastDouble extents.now) }
{
    let mut reach = 0;
    for extent in extents {
        if extent.len() > 0 {
            if (extent.at() as usize) < reach {
                return Some(extent.at());
            }
            reach = extent.end();
        }
    }
    None
}

/// The second section that has an address.
fn second_at(extents: &[Extent], at: u32) -> Option<&Extent>
    ensures { option_copied result ≡ slice_get (filter (covers at) extents.now) 1 }
{
    let mut has_first = false;
    for extent in extents {
        if extent.covers(at) {
            if has_first {
                return Some(extent);
            }
            has_first = true;
        }
    }
    None
}

/// Refuses sections of which two have one address.
pub fn check_overlap(alloc: Global, placements: &[Placement]) -> Result<(), LinkFault>
    ensures ok { OnOk result (AreDisjoint (flat_map extents_of placements.now)) }
    ensures err { IfErr result (λ e. (e ≡ memory_fault)
        ⊎ IsOverlap (flat_map extents_of placements.now) e) }
{
    let mut extents = extents(alloc, placements)?;
    extents.sort_unstable_by_key(|extent| extent.at());
    match first_double(&extents) {
        None => Ok(()),
        Some(at) => overlap(alloc, placements, at),
    }
}

/// Refuses sections whose least address with two bytes is known.
fn overlap(alloc: Global, placements: &[Placement], at: u32) -> Result<(), LinkFault>
    requires { IsLeastDouble (flat_map extents_of placements.now) at }
    ensures { MatchResult result (λ _. ⊥) (λ e. (e ≡ memory_fault)
        ⊎ IsOverlap (flat_map extents_of placements.now) e) }
{
    let extents = extents(alloc, placements)?;
    match second_at(&extents, at) {
        Some(second) => Err(LinkFault {
            line: second.line(),
            col: 1,
            kind: LinkKind::Overlap(at),
        }),
        None => unreachable!(),
    }
}
