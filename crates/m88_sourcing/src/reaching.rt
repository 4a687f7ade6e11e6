//! The words that the flow of a program reaches.
ghost use Rattle.std.specs.Prelude.{◌≡◌, ◌⊎◌, ◌↔◌, ◌++◌, ◌∷◌, ℕ, List, Some, Contains, IfOk, IfSome, OnOk, IsTrue, map};
ghost use Rattle.std.specs.Option.{option_to_list};
ghost use Rattle.std.specs.FinSet.{contains};
ghost use Rattle.m88_sourcing.specs.Code.{HasInstruction, HoldsInstruction, IsCode, IsReached};
ghost use Rattle.m88_isa.specs.Address.{word_address};
ghost use Rattle.m88_sourcing.specs.Flow.{branch_target};
ghost use Rattle.m88_sourcing.specs.Inside.Members.{OutlinesImage};
ghost use Rattle.m88_sourcing.specs.Said.{told};
ghost use Rattle.m88_sourcing.specs.Inside.Walks.{AreRest, HasSlot, IsClosed, IsReachedIfCode, IsWalkSound, Keeps, MayLeadTo, NamesTargets};

use crate::flow::{goes_on_to, slot};
use crate::outline::{Noted, Outline, note_entries, note_word, words_at};
use crate::said::Said;
use crate::standing::{bytes_on, is_exit, standing, standing_in};
use m88_base::Image;
use m88_isa::Instr;
use std::alloc::{AllocError, Global};

/// The most instructions of a way, so that each way ends.
const MOST_OF_A_WAY: usize = 4096;

/// What is found on a walk along the ways of a program.
#[derive(Drop)]
pub(crate) struct Walk {
    pub outline: Outline,
    /// Where ways begin, in the order in which they were found.
    pub heads: Vec<u32>,
    /// The delay slots of the words of code at which the program doesn't go on.
    pub slots: Vec<u32>,
}

/// Appends an address, where there is one.
fn push_if(addresses: &mut Vec<u32>, at: Option<u32>) -> Result<(), AllocError>
    ensures { OnOk result (addresses.new.items ≡ addresses.old.items ++ option_to_list at) }
{
    if let Some(at) = at {
        addresses.push(at)?;
    }
    Ok(())
}

/// Appends an address, where there is one and it isn't where the program goes on anyway.
fn push_other(
    addresses: &mut Vec<u32>,
    at: Option<u32>,
    next: Option<u32>,
) -> Result<(), AllocError>
    ensures keeps { OnOk result ((b : ℕ) → Contains addresses.old.items b
        → Contains addresses.new.items b) }
    ensures has { OnOk result ((b : ℕ) → at ≡ Some b
        → Contains addresses.new.items b ⊎ (next ≡ Some b)) }
    ensures only { OnOk result ((b : ℕ) → Contains addresses.new.items b
        → Contains addresses.old.items b ⊎ (at ≡ Some b)) }
{
    if at == next {
        return Ok(());
    }
    push_if(addresses, at)
}

/// Where the program goes on behind an instruction at an address, none where it doesn't.
fn next_of(image: &Image, at: u32, instr: &Instr) -> Option<u32>
    requires { HoldsInstruction image.now at instr.now }
    ensures has { (b : ℕ) → MayLeadTo image.now at b
        → (branch_target at instr.now ≡ Some b) ⊎ (result ≡ Some b) }
    ensures only { (b : ℕ) → result ≡ Some b → MayLeadTo image.now at b }
    ensures branch { (b : ℕ) → branch_target at instr.now ≡ Some b → MayLeadTo image.now at b }
{
    if is_exit(image, at, instr) {
        return None;
    }
    goes_on_to(at, instr)
}

/// Notes the word at an address with its slot and its target, where an instruction stands there that wasn't noted yet.
/// The bytes are those of the image from there on. Answers where the program goes on.
fn step(walk: &mut Walk, image: &Image, at: u32, bytes: &[u8]) -> Result<Option<u32>, AllocError>
    requires closed { IsClosed image.now walk.old (λ b. b ≡ at) }
    requires rest { AreRest image.now at bytes.now }
    ensures closed { IfOk result (λ next. IsClosed image.now walk.new (λ b. next ≡ Some b)) }
    ensures sound { IfOk result (λ next. (seeds : List ℕ) → IsWalkSound image.now seeds walk.old
        → IsReachedIfCode image.now seeds at
        → IsWalkSound image.now seeds walk.new × IfSome next (IsReachedIfCode image.now seeds)) }
    ensures keeps { OnOk result (Keeps walk.old walk.new) }
    ensures found { OnOk result (HasInstruction image.now at
        → IsTrue (contains walk.new.outline.code at)) }
{
    let Some(instr) = standing_in(at, bytes) else {
        return Ok(None);
    };
    let Noted::Now(label) = note_word(&mut walk.outline, image, at, &instr)? else {
        return Ok(None);
    };
    push_if(&mut walk.heads, label)?;
    let next = next_of(image, at, &instr);
    push_other(&mut walk.slots, slot(at, &instr), next)?;
    Ok(next)
}

/// Follows a way to its end, or up to the head of a further one, where its head wasn't found yet.
fn follow_way(walk: &mut Walk, image: &Image, head: u32) -> Result<(), AllocError>
    requires { IsClosed image.now walk.old (λ b. b ≡ head) }
    ensures closed { OnOk result (IsClosed image.now walk.new (λ _. ⊥)) }
    ensures sound { OnOk result ((seeds : List ℕ) → IsWalkSound image.now seeds walk.old
        → IsReachedIfCode image.now seeds head → IsWalkSound image.now seeds walk.new) }
    ensures keeps { OnOk result (Keeps walk.old walk.new) }
    ensures found { OnOk result (HasInstruction image.now head
        → IsTrue (contains walk.new.outline.code head)) }
{
    if walk.outline.code.contains(head) {
        return Ok(());
    }
    let mut at = head;
    let mut bytes = image.rest(at);
    let mut next = step(walk, image, at, bytes)?;
    for _ in 1..MOST_OF_A_WAY {
        let Some(to) = next else {
            return Ok(());
        };
        bytes = bytes_on(image, at, bytes, to);
        at = to;
        next = step(walk, image, at, bytes)?;
    }
    push_if(&mut walk.heads, next)
}

/// A walk along all ways of a program, where they begin at these addresses.
fn follow(alloc: Global, image: &Image, seeds: Vec<u32>) -> Result<Walk, AllocError>
    ensures sound { IfOk result (λ w. IsWalkSound image.now seeds.items w) }
    ensures all { IfOk result (λ w. (a : ℕ) → IsReached image.now seeds.items a
        → IsTrue (contains w.outline.code a)) }
    ensures slots { IfOk result (λ w. (a b : ℕ) → IsTrue (contains w.outline.code a)
        → HasSlot image.now a b → Contains w.slots.items b ⊎ MayLeadTo image.now a b) }
    ensures names { IfOk result (λ w. NamesTargets image.now w.outline) }
{
    let mut walk = Walk {
        outline: Outline::new(alloc, image)?,
        heads: seeds,
        slots: Vec::new(alloc),
    };
    let mut next = 0;
    while next < walk.heads.len() {
        let head = walk.heads[next];
        follow_way(&mut walk, image, head)?;
        next += 1;
    }
    Ok(walk)
}

/// Notes the word of a delay slot, where an instruction stands there.
fn note_slot(outline: &mut Outline, image: &Image, at: u32) -> Result<(), AllocError>
    requires { NamesTargets image.now outline.old }
    ensures code { OnOk result ((a : ℕ) → IsTrue (contains outline.new.code a)
        ↔ (IsTrue (contains outline.old.code a) ⊎ ((a ≡ at) × HasInstruction image.now a))) }
    ensures named { OnOk result (NamesTargets image.now outline.new) }
{
    if let Some(instr) = standing(image, at) {
        note_word(outline, image, at, &instr)?;
    }
    Ok(())
}

/// Notes the words of delay slots, where instructions stand there.
fn note_slots(outline: &mut Outline, image: &Image, slots: &[u32]) -> Result<(), AllocError>
    requires { NamesTargets image.now outline.old }
    ensures code { OnOk result ((a : ℕ) → IsTrue (contains outline.new.code a)
        ↔ (IsTrue (contains outline.old.code a) ⊎ (Contains slots.now a × HasInstruction image.now a))) }
    ensures named { OnOk result (NamesTargets image.now outline.new) }
{
    for slot in slots {
        note_slot(outline, image, *slot)?;
    }
    Ok(())
}

/// The words at which code begins: the start's, and those of further addresses.
fn seeds(alloc: Global, image: &Image, entries: &[u32]) -> Result<Vec<u32>, AllocError>
    ensures { IfOk result (λ seeds.
        seeds.items ≡ word_address image.now.start ∷ map word_address entries.now) }
{
    let mut seeds = Vec::new(alloc);
    seeds.push(image.start() / 4 * 4)?;
    for entry in entries {
        seeds.push(*entry / 4 * 4)?;
    }
    Ok(seeds)
}

/// The words of an image that are code, by what is said of it, with their targets.
fn code_words(alloc: Global, image: &Image, said: &Said) -> Result<Outline, AllocError>
    ensures code { IfOk result (λ o. (a : ℕ)
        → IsTrue (contains o.code a) ↔ IsCode image.now (told said.now) a) }
    ensures names { IfOk result (λ o. NamesTargets image.now o) }
{
    let seeds = seeds(alloc, image, said.entries.as_slice())?;
    let Walk {
        mut outline,
        slots,
        ..
    } = follow(alloc, image, seeds)?;
    note_slots(&mut outline, image, &slots)?;
    Ok(outline)
}

/// The outline of an image, by what is said of it.
pub(crate) fn outline_of(alloc: Global, image: &Image, said: &Said) -> Result<Outline, AllocError>
    ensures { IfOk result (λ o. OutlinesImage image.now (told said.now) o) }
{
    let mut outline = code_words(alloc, image, said)?;
    note_entries(&mut outline.labels, &outline.code, said.entries.as_slice())?;
    outline.far.sort_unstable();
    outline.far.dedup();
    let stays = words_at(alloc, image, said.fixed.as_slice())?;
    outline.stays = stays;
    Ok(outline)
}
