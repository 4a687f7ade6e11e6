//! The listing of an image.
ghost use Rattle.std.specs.Prelude.{◌≡◌, ◌+◌, ◌*◌, ◌<◌, ◌≤◌, ◌^◌, ◌++◌, ℕ, List, length, IfOk, IsTrue, OnOk, ◌↔◌};
ghost use Rattle.m88_base.specs.Appended.{AreAppended};
ghost use Rattle.m88_base.specs.Image.{IsImage, parts};
ghost use Rattle.m88_base.specs.Lines.{line_end};
ghost use Rattle.m88_base.specs.Placed.{count_among};
ghost use Rattle.m88_disasm.specs.Inside.Appended.{BytesAppended, LineAppended};
ghost use Rattle.m88_disasm.specs.Listing.{AreLinesFrom, ArePartLines, BeginsWord, IsImageListing, IsWordLine, lone_byte_line, place_line, start_line};
ghost use Rattle.m88_disasm.specs.Read.{WritesImage};
ghost use Rattle.m88_disasm.specs.Text.{hexadecimal};

use crate::put::MOST_TEXT;
use crate::text::text_of;
use m88_base::{Image, NoMemory, push_hex2, push_hex8};
use m88_codec::{BadWord, decode, word_at};
use std::alloc::{AllocError, Global};

/// The most bytes of the line of a word or a byte: a text and the line end.
const MOST_LINE: usize = MOST_TEXT + 1;

/// The most bytes of a part's lines for each of its bytes: the line of a byte, and that of its address.
const MOST_PER_BYTE: usize = MOST_LINE + 15;

/// Appends 0x, a word in eight digits, and a line end.
fn push_hexadecimal(text: &mut Vec<u8>, n: u32) -> Result<(), AllocError>
    ensures { OnOk result (text.new.items ≡ text.old.items ++ (hexadecimal n ++ line_end)) }
{
    text.extend_from_slice(b"0x")?;
    push_hex8(text, n)?;
    text.push(b'\n')?;
    Ok(())
}

/// Appends the line that says where the program starts.
pub fn push_start(text: &mut Vec<u8>, start: u32) -> Result<(), AllocError>
    ensures { OnOk result (text.new.items ≡ text.old.items ++ (start_line start ++ line_end)) }
{
    text.extend_from_slice(b".set _start,")?;
    push_hexadecimal(text, start)
}

/// Appends the line that says where a part begins.
pub fn push_place(text: &mut Vec<u8>, at: u32) -> Result<(), AllocError>
    ensures { OnOk result (text.new.items ≡ text.old.items ++ (place_line at ++ line_end)) }
{
    text.extend_from_slice(b".at ")?;
    push_hexadecimal(text, at)
}

/// Appends the line of a byte by itself.
pub fn push_byte(text: &mut Vec<u8>, b: u8) -> Result<(), AllocError>
    ensures { OnOk result (text.new.items ≡ text.old.items ++ (lone_byte_line b ++ line_end)) }
{
    text.extend_from_slice(b".byte 0x")?;
    push_hex2(text, b)?;
    text.push(b'\n')?;
    Ok(())
}

/// Appends a line.
pub fn push_line(text: &mut Vec<u8>, line: &[u8]) -> Result<(), AllocError>
    ensures { OnOk result (text.new.items ≡ text.old.items ++ (line.now ++ line_end)) }
{
    text.extend_from_slice(line)?;
    text.push(b'\n')?;
    Ok(())
}

/// Appends the line of a word.
fn push_word(text: &mut Vec<u8>, word: u32) -> Result<(), AllocError>
    ensures line { OnOk result (LineAppended (IsWordLine word) text.old.items text.new.items) }
    ensures room { OnOk result (length text.new.items ≤ length text.old.items + MOST_LINE) }
{
    match decode(word) {
        Ok(instr) => {
            push_line(text, text_of(&instr).as_str().as_bytes())?;
            Ok(())
        }
        Err(BadWord) => {
            text.extend_from_slice(b".word ")?;
            push_hexadecimal(text, word)?;
            Ok(())
        }
    }
}

/// Whether a word begins at an address with these bytes from there on.
fn begins_word(at: u32, bytes: &[u8]) -> bool
    ensures { IsTrue result ↔ BeginsWord at bytes.now }
{
    at.is_multiple_of(4) && bytes.len() >= 4
}

/// Appends the line of the word that begins there, else of the first byte, and answers how many bytes that line is for.
fn push_first(text: &mut Vec<u8>, at: u32, bytes: &[u8]) -> Result<usize, AllocError>
    requires { 0 < length bytes.now }
    ensures appended { IfOk result
        (λ n. BytesAppended at bytes.now text.old.items text.new.items n) }
    ensures room { IfOk result
        (λ n. length text.new.items ≤ length text.old.items + MOST_LINE * n) }
    ensures some { IfOk result (λ n. 0 < n) }
    ensures within { IfOk result (λ n. n ≤ length bytes.now) }
{
    if begins_word(at, bytes) {
        push_word(text, word_at(bytes))?;
        Ok(4)
    } else {
        push_byte(text, bytes[0])?;
        Ok(1)
    }
}

/// Appends the lines of the bytes from an address on.
fn push_bytes(text: &mut Vec<u8>, at: u32, bytes: &[u8]) -> Result<(), AllocError>
    requires { at + length bytes.now ≤ 2 ^ 32 }
    ensures lines { OnOk result
        (AreAppended (AreLinesFrom at bytes.now) text.old.items text.new.items) }
    ensures room { OnOk result
        (length text.new.items ≤ length text.old.items + MOST_LINE * length bytes.now) }
{
    let mut done = 0;
    while done < bytes.len() {
        let (_, rest) = bytes.split_at(done);
        done += push_first(text, at + done as u32, rest)?;
    }
    Ok(())
}

/// Appends the lines of all parts of an image.
fn push_parts(text: &mut Vec<u8>, image: &Image) -> Result<(), AllocError>
    ensures lines { OnOk result
        (AreAppended (ArePartLines (parts image.now)) text.old.items text.new.items) }
    ensures room { OnOk result (length text.new.items
        ≤ length text.old.items + MOST_PER_BYTE * count_among (parts image.now)) }
    ensures image { IsImage image.now }
{
    for index in 0..image.part_count() {
        let (at, bytes) = image.part(index);
        push_place(text, at)?;
        push_bytes(text, at, bytes)?;
    }
    Ok(())
}

/// The listing, or that there is no memory for it.
fn listed(alloc: Global, image: &Image) -> Result<Vec<u8>, AllocError>
    ensures text { IfOk result (λ text. IsImageListing image.now text.items) }
    ensures short { IfOk result (λ text. length text.items < 2 ^ 31) }
    ensures image { OnOk result (IsImage image.now) }
{
    let mut text = Vec::new(alloc);
    push_start(&mut text, image.start())?;
    push_parts(&mut text, image)?;
    Ok(text)
}

/// The listing of an image: a source in the assembly language with the start, and for each part of the image its
/// address and the texts of its instructions; words of no instruction and bytes of no whole word by themselves.
pub fn listing(alloc: Global, image: &Image) -> Result<Vec<u8>, NoMemory>
    ensures value { IfOk result (λ text. IsImageListing image.now text.items) }

    // Read, assembled and linked, the listing is the image with its start.
    ensures again { IfOk result (λ text. WritesImage text.items image.now) }
    ensures short { IfOk result (λ text. length text.items < 2 ^ 31) }

    // An image has no other listing.
    ensures only { IfOk result (λ text. (other : List ℕ) → IsImageListing image.now other
        → other ≡ text.items) }
{
    let text = listed(alloc, image)?;
    Ok(text)
}
