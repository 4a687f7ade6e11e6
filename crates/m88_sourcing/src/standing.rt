//! The instructions that stand in an image.
ghost use Rattle.std.specs.Prelude.{◌≡◌, ◌↔◌, ◌+◌, ◌<◌, ◌≤◌, ℕ, None, Some, IfSome, IsTrue, length, slice_get};
ghost use Rattle.m88_base.specs.Image.{ProgramImage, byte_at};
ghost use Rattle.m88_isa.specs.Instr.{IsValid};
ghost use Rattle.m88_isa.specs.declared.instr.Instr.{Instr as Instruction};
ghost use Rattle.m88_sourcing.specs.Code.{IsExit, HoldsInstruction};
ghost use Rattle.m88_sourcing.specs.Flow.{branch_target};
ghost use Rattle.m88_sourcing.specs.Inside.Walks.{AreRest};

use crate::flow::{asks_for_end, calls_monitor};
use m88_base::Image;
use m88_codec::{decode, word_at};
use m88_isa::Instr;

/// The instruction that stands at an address, whose word isn't 0, where the image has these bytes from there on.
pub(crate) fn standing_in(at: u32, bytes: &[u8]) -> Option<Instr>
    ensures some { IfSome result (λ i. (image : ProgramImage) → AreRest image at bytes.now
        → HoldsInstruction image at i) }
    ensures only { (image : ProgramImage) (i : Instruction) → AreRest image at bytes.now
        → HoldsInstruction image at i → result ≡ Some i }
{
    if !at.is_multiple_of(4) {
        return None;
    }
    if bytes.len() < 4 {
        return None;
    }
    let word = word_at(bytes);
    if word == 0 {
        return None;
    }
    decode(word).ok()
}

/// The instruction that stands at an address, whose word isn't 0.
pub(crate) fn standing(image: &Image, at: u32) -> Option<Instr>
    ensures some { IfSome result (λ i. HoldsInstruction image.now at i) }
    ensures only { (i : Instruction) → HoldsInstruction image.now at i → result ≡ Some i }
{
    standing_in(at, image.rest(at))
}

/// The bytes of an image from the address `to` on, where those from `at` on are known.
pub(crate) fn bytes_on<'a>(image: &'a Image, at: u32, bytes: &'a [u8], to: u32) -> &'a [u8]
    requires { AreRest image.now at bytes.now }
    ensures { AreRest image.now to result.now }
{
    if u64::from(to) == u64::from(at) + 4 && bytes.len() >= 4 {
        let (_, rest) = bytes.split_at(4);
        return rest;
    }
    image.rest(to)
}

/// Whether the program ends at an address with this instruction.
pub(crate) fn is_exit(image: &Image, at: u32, instr: &Instr) -> bool
    requires { HoldsInstruction image.now at instr.now }
    ensures exit { IsTrue result ↔ IsExit image.now at }
    ensures no_branch { IsTrue result → (pc : ℕ) → branch_target pc instr.now ≡ None }
{
    if !calls_monitor(instr) {
        return false;
    }
    match standing(image, at.wrapping_sub(4)) {
        Some(before) => asks_for_end(&before),
        None => false,
    }
}

/// The instruction whose word some bytes begin with.
pub(crate) fn instruction_in(bytes: &[u8]) -> Option<Instr>
    requires { 4 ≤ length bytes.now }
    ensures only { (image : ProgramImage) (at : ℕ) (i : Instruction)
        → ((k : ℕ) → k < 4 → byte_at image (at + k) ≡ slice_get bytes.now k)
        → HoldsInstruction image at i → result ≡ Some i }
    ensures valid { IfSome result IsValid }
{
    decode(word_at(bytes)).ok()
}
