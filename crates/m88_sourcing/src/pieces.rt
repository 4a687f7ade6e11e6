//! The lines of the pieces of an image.
ghost use Rattle.std.specs.Prelude.{◌≡◌, ◌⊎◌, ◌↔◌, ◌+◌, ◌*◌, ◌%◌, ◌<◌, ◌≤◌, ◌^◌, ℕ, suc, List, [], None, IfOk, IsTrue, OnOk, drop, length, slice_get};
ghost use Rattle.std.specs.FinSet.{contains};
ghost use Rattle.m88_base.specs.Appended.{AreAppended};
ghost use Rattle.m88_base.specs.Found.{IsPart};
ghost use Rattle.m88_base.specs.Image.{IsImage, byte_at, parts};
ghost use Rattle.m88_sourcing.specs.Code.{HasInstruction};
ghost use Rattle.m88_sourcing.specs.Inside.Appended.{FrontAppended};
ghost use Rattle.m88_sourcing.specs.Inside.Members.{AsAt, OutlinesImage, IsOutlined, among_words};
ghost use Rattle.m88_sourcing.specs.Labels.{HasLabel};
ghost use Rattle.m88_sourcing.specs.Said.{Said};
ghost use Rattle.m88_sourcing.specs.Source.{AreCodeLines, AreSourceLines, ArePieceLines, IsPiece};

use crate::lines::{push_label_at, push_start_at};
use crate::loose::{push_loose, stretch_len};
use crate::naming::push_instruction;
use crate::outline::Outline;
use crate::standing::instruction_in;
use crate::words::Words;
use m88_base::Image;
use m88_disasm::push_place;
use std::alloc::AllocError;

/// Whether the byte at an address belongs to a word that is code.
fn is_in_code(code: &Words, at: u32) -> bool
    ensures { result ≡ among_words (contains code.now) at }
{
    code.contains(at / 4 * 4)
}

/// How many of the bytes from an address on are code as the first is, or are none as the first isn't.
fn piece_len(code: &Words, at: u32, bytes: &[u8]) -> usize
    requires some { 0 < length bytes.now }
    requires fits { at + length bytes.now ≤ 2 ^ 32 }
    ensures piece { IsPiece (AsAt (contains code.now) at) at bytes.now result }
    ensures whole { (result ≡ length bytes.now) ⊎ ((at + result) % 4 ≡ 0) }
{
    let is_code = is_in_code(code, at);
    let mut len = 4 - at as usize % 4;
    while len < bytes.len() && is_in_code(code, at + len as u32) == is_code {
        len += 4;
    }
    len.min(bytes.len())
}

/// Appends the lines of the word of code at an address, which has these bytes.
fn push_code_word(
    text: &mut Vec<u8>,
    image: &Image,
    labels: &Words,
    at: u32,
    bytes: &[u8],
) -> Result<(), AllocError>
    requires stands { HasInstruction image.now at }
    requires long { 4 ≤ length bytes.now }
    requires there { (k : ℕ) → k < 4 → byte_at image.now (at + k) ≡ slice_get bytes.now k }
    ensures { OnOk result ((said : Said) (n : ℕ)
        → ((a : ℕ) → IsTrue (contains labels.now a) ↔ HasLabel image.now said a)
        → FrontAppended (AreCodeLines (λ _. []) image.now said at (suc n))
        (AreCodeLines (λ _. []) image.now said (at + 4) n) text.old.items text.new.items) }
{
    push_label_at(text, labels.contains(at), at)?;
    push_start_at(text, image.start(), at)?;
    match instruction_in(bytes) {
        Some(instr) => push_instruction(text, at, &instr),
        None => unreachable!(),
    }
}

/// Appends the lines of so many words of code from an address on.
fn push_code(
    text: &mut Vec<u8>,
    image: &Image,
    outline: &Outline,
    at: u32,
    words: usize,
) -> Result<(), AllocError>
    requires fits { at + 4 * words ≤ 2 ^ 32 }
    requires stand { (k : ℕ) → k < words → HasInstruction image.now (at + 4 * k) }
    ensures { OnOk result ((said : Said) → OutlinesImage image.now said outline.now
        → AreAppended (AreCodeLines (λ _. []) image.now said at words)
        text.old.items text.new.items) }
{
    let bytes = image.rest(at);
    for index in 0..words {
        let (_, rest) = bytes.split_at(4 * index);
        push_code_word(text, image, &outline.labels, at + (4 * index) as u32, rest)?;
    }
    Ok(())
}

/// Appends the lines of the piece that begins with the first of the bytes from an address on, and answers how many of
/// them it has.
fn push_piece(
    text: &mut Vec<u8>,
    image: &Image,
    outline: &Outline,
    at: u32,
    bytes: &[u8],
) -> Result<usize, AllocError>
    requires outlined { IsOutlined image.now outline.now }
    requires some { 0 < length bytes.now }
    requires fits { at + length bytes.now ≤ 2 ^ 32 }
    requires end { byte_at image.now (at + length bytes.now) ≡ None }
    requires whole { IsTrue (among_words (contains outline.now.code) at) → at % 4 ≡ 0 }
    ensures lines { IfOk result (λ n. (said : Said)
        → OutlinesImage image.now said outline.now
        → FrontAppended (ArePieceLines (λ _. []) image.now said at bytes.now)
        (ArePieceLines (λ _. []) image.now said (at + n) (drop n bytes.now))
        text.old.items text.new.items) }
    ensures some { IfOk result (λ n. 0 < n) }
    ensures within { IfOk result (λ n. n ≤ length bytes.now) }
    ensures whole { IfOk result (λ n. (n ≡ length bytes.now) ⊎ ((at + n) % 4 ≡ 0)) }
{
    let len = piece_len(&outline.code, at, bytes);
    push_place(text, at)?;
    if is_in_code(&outline.code, at) {
        let own = stretch_len(&outline.stays, at, &bytes[..len]);
        push_code(text, image, outline, at, own / 4)?;
        return Ok(own);
    }
    push_loose(text, outline, at, &bytes[..len])?;
    Ok(len)
}

/// Appends the lines of a part.
fn push_part(
    text: &mut Vec<u8>,
    image: &Image,
    outline: &Outline,
    at: u32,
    bytes: &[u8],
) -> Result<(), AllocError>
    requires outlined { IsOutlined image.now outline.now }
    requires fits { at + length bytes.now ≤ 2 ^ 32 }
    requires part { IsPart (byte_at image.now) at bytes.now }
    ensures { OnOk result ((said : Said) → OutlinesImage image.now said outline.now
        → AreAppended (ArePieceLines (λ _. []) image.now said at bytes.now)
        text.old.items text.new.items) }
{
    let mut done = 0;
    while done < bytes.len() {
        let (_, rest) = bytes.split_at(done);
        let len = push_piece(text, image, outline, at + done as u32, rest)?;
        done += len;
    }
    Ok(())
}

/// Appends the lines of all parts of an image.
pub(crate) fn push_parts(
    text: &mut Vec<u8>,
    image: &Image,
    outline: &Outline,
) -> Result<(), AllocError>
    requires { IsOutlined image.now outline.now }
    ensures lines { OnOk result ((said : Said) → OutlinesImage image.now said outline.now
        → AreAppended (AreSourceLines (λ _. []) image.now said (parts image.now))
        text.old.items text.new.items) }
    ensures image { IsImage image.now }
{
    for index in 0..image.part_count() {
        let (at, bytes) = image.part(index);
        push_part(text, image, outline, at, bytes)?;
    }
    Ok(())
}
