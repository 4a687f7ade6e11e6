//! What is known of an image before its source is written.
ghost use Rattle.std.specs.Prelude.{◌≡◌, ◌⊎◌, ◌↔◌, ℕ, Some, false, Contains, IfOk, IsTrue, OnOk, map};
ghost use Rattle.std.specs.FinSet.{contains};
ghost use Rattle.m88_base.specs.Image.{ProgramImage};
ghost use Rattle.m88_isa.specs.Address.{word_address};
ghost use Rattle.m88_sourcing.specs.Code.{HoldsInstruction};
ghost use Rattle.m88_sourcing.specs.Flow.{branch_target};
ghost use Rattle.m88_sourcing.specs.Inside.Members.{AddsLabel, Notes, noted_label};
ghost use Rattle.m88_sourcing.specs.Inside.Walks.{NamesTargets};

use crate::flow::branch_target;
use crate::words::Words;
use m88_base::Image;
use m88_isa::Instr;
use std::alloc::{AllocError, Global};

/// The words that are code, the addresses that have a label, the targets of branches that have no byte, and the words that
/// stay where they are.
#[derive(Drop)]
pub(crate) struct Outline {
    pub code: Words,
    pub labels: Words,
    /// One for each branch to it, until `outline_of` sorts them and drops repeats.
    pub far: Vec<u32>,
    /// None, until `outline_of` has noted those that were said.
    pub stays: Words,
}

impl Outline {
    /// Where nothing is known of an image.
    pub fn new(alloc: Global, image: &Image) -> Result<Outline, AllocError>
        ensures code { IfOk result (λ o. (a : ℕ) → contains o.code a ≡ false) }
        ensures named { IfOk result (λ o. (any : ProgramImage) → NamesTargets any o) }
    {
        Ok(Outline {
            code: Words::new(alloc, image)?,
            labels: Words::new(alloc, image)?,
            far: Vec::new(alloc),
            stays: Words::new(alloc, image)?,
        })
    }
}

/// What came of noting a word that is code.
#[derive(Clone, Copy, PartialEq, Eq, Debug)]
pub(crate) enum Noted {
    /// It was noted before.
    Before,
    /// It is noted now, and so is this label of its target, where that is new.
    Now(Option<u32>),
}

/// Notes an address that a branch names, and answers it where it has a byte, and so is a label.
fn note_target(outline: &mut Outline, image: &Image, at: u32) -> Result<Option<u32>, AllocError>
    ensures notes { OnOk result (Notes image.now (λ a. a ≡ at) outline.old outline.new) }
    ensures label { IfOk result (λ label. (a : ℕ) → label ≡ Some a → a ≡ at) }
    ensures labels { IfOk result (AddsLabel outline.old outline.new) }
{
    if image.byte(at).is_none() {
        outline.far.push(at)?;
        return Ok(None);
    }
    outline.labels.insert(at)?;
    Ok(Some(at))
}

/// Notes a word that is code, and the target of the instruction there.
pub(crate) fn note_word(
    outline: &mut Outline,
    image: &Image,
    at: u32,
    instr: &Instr,
) -> Result<Noted, AllocError>
    requires holds { HoldsInstruction image.now at instr.now }
    requires named { NamesTargets image.now outline.old }
    ensures code { OnOk result ((a : ℕ) → IsTrue (contains outline.new.code a)
        ↔ (IsTrue (contains outline.old.code a) ⊎ (a ≡ at))) }
    ensures named { OnOk result (NamesTargets image.now outline.new) }
    ensures again { IfOk result (λ noted. noted ≡ Noted.Before
        → IsTrue (contains outline.old.code at)) }
    ensures label { IfOk result (λ noted. (a : ℕ) → noted_label noted ≡ Some a
        → branch_target at instr.now ≡ Some a) }
    ensures labels { IfOk result (λ noted.
        AddsLabel outline.old outline.new (noted_label noted)) }
{
    if !outline.code.insert(at)? {
        return Ok(Noted::Before);
    }
    let Some(target) = branch_target(at, instr) else {
        return Ok(Noted::Now(None));
    };
    if outline.labels.contains(target) {
        return Ok(Noted::Now(None));
    }
    let label = note_target(outline, image, target)?;
    Ok(Noted::Now(label))
}

/// Notes the word of an address at which code was said to begin, where it is code.
fn note_entry(labels: &mut Words, code: &Words, entry: u32) -> Result<(), AllocError>
    ensures { OnOk result ((a : ℕ) → IsTrue (contains labels.new a)
        ↔ (IsTrue (contains labels.old a)
        ⊎ ((a ≡ word_address entry) × IsTrue (contains code.now a)))) }
{
    let at = entry / 4 * 4;
    if code.contains(at) {
        labels.insert(at)?;
    }
    Ok(())
}

/// Notes the words of addresses at which code was said to begin, where they are code.
pub(crate) fn note_entries(
    labels: &mut Words,
    code: &Words,
    entries: &[u32],
) -> Result<(), AllocError>
    ensures { OnOk result ((a : ℕ) → IsTrue (contains labels.new a)
        ↔ (IsTrue (contains labels.old a)
        ⊎ (Contains (map word_address entries.now) a × IsTrue (contains code.now a)))) }
{
    for entry in entries {
        note_entry(labels, code, *entry)?;
    }
    Ok(())
}

/// The words of addresses.
pub(crate) fn words_at(alloc: Global, image: &Image, addresses: &[u32]) -> Result<Words, AllocError>
    ensures { IfOk result (λ words. (a : ℕ) → IsTrue (contains words a)
        ↔ Contains (map word_address addresses.now) a) }
{
    let mut words = Words::new(alloc, image)?;
    for at in addresses {
        words.insert(*at / 4 * 4)?;
    }
    Ok(words)
}
