//! The lines of names, zeros, texts and words.
ghost use Rattle.std.specs.Prelude.{◌≡◌, ◌*◌, ◌<◌, ◌≤◌, ◌++◌, ◌∷◌, IsTrue, OnOk, codes, flat_map, length, take};
ghost use Rattle.std.specs.Int.{from_be_bytes, w32};
ghost use Rattle.std.specs.FinSet.{contains};
ghost use Rattle.m88_base.specs.Appended.{AreAppended};
ghost use Rattle.m88_base.specs.Lines.{line_end};
ghost use Rattle.m88_disasm.specs.Text.{hexadecimal};
ghost use Rattle.m88_sourcing.specs.Data.{in_text, text_line, words_line, zeros_line};
ghost use Rattle.m88_disasm.specs.Listing.{start_line};
ghost use Rattle.m88_sourcing.specs.Labels.{label_line, label_of};
ghost use Rattle.m88_sourcing.specs.Source.{LineWhere, far_line};

use crate::words::Words;
use m88_base::{push_decimal, push_hex8, word_digits};
use m88_codec::word_at;
use m88_disasm::push_start;
use std::alloc::AllocError;

/// Appends a byte, the name of an address and the line's end.
pub(crate) fn push_named(text: &mut Vec<u8>, before: u8, at: u32) -> Result<(), AllocError>
    ensures { OnOk result (text.new.items ≡ text.old.items ++ (before ∷ label_of at) ++ line_end) }
{
    let [a, b, c, d, e, f, g, h] = word_digits(at);
    text.extend_from_slice(&[before, b'L', a, b, c, d, e, f, g, h, b'\n'])
}

/// Appends the line of the label of an address.
fn push_label(text: &mut Vec<u8>, at: u32) -> Result<(), AllocError>
    ensures { OnOk result
        (text.new.items ≡ text.old.items ++ (label_line (label_of at) ++ line_end)) }
{
    let [a, b, c, d, e, f, g, h] = word_digits(at);
    text.extend_from_slice(&[b'L', a, b, c, d, e, f, g, h, b':', b'\n'])
}

/// Appends the line of the label of an address, where it has one.
pub(crate) fn push_label_at(text: &mut Vec<u8>, has_label: bool, at: u32) -> Result<(), AllocError>
    ensures { OnOk result (AreAppended
        (LineWhere (IsTrue has_label) (label_line (label_of at)))
        text.old.items text.new.items) }
{
    if has_label {
        push_label(text, at)?;
    }
    Ok(())
}

/// Appends the line that marks the start.
fn push_start_label(text: &mut Vec<u8>) -> Result<(), AllocError>
    ensures { OnOk result
        (text.new.items ≡ text.old.items ++ (label_line (codes "_start") ++ line_end)) }
{
    text.extend_from_slice(b"_start:\n")
}

/// Appends the line that marks the start, where it is the address.
pub(crate) fn push_start_at(text: &mut Vec<u8>, start: u32, at: u32) -> Result<(), AllocError>
    ensures { OnOk result (AreAppended
        (LineWhere (at ≡ start) (label_line (codes "_start"))) text.old.items text.new.items) }
{
    if at == start {
        push_start_label(text)?;
    }
    Ok(())
}

/// Appends the line that says where the program starts, where that isn't a word that is code.
pub(crate) fn push_start_number(
    text: &mut Vec<u8>,
    code: &Words,
    start: u32,
) -> Result<(), AllocError>
    ensures { OnOk result (AreAppended
        (LineWhere (¬ IsTrue (contains code.now start)) (start_line start))
        text.old.items text.new.items) }
{
    if !code.contains(start) {
        push_start(text, start)?;
    }
    Ok(())
}

/// Appends the line that gives the name of an address without a byte its value.
pub(crate) fn push_far(text: &mut Vec<u8>, at: u32) -> Result<(), AllocError>
    ensures { OnOk result (text.new.items ≡ text.old.items ++ (far_line at ++ line_end)) }
{
    let [a, b, c, d, e, f, g, h] = word_digits(at);
    text.extend_from_slice(&[
        b'.', b's', b'e', b't', b' ', b'L', a, b, c, d, e, f, g, h, b',', b'0', b'x', a, b, c, d,
        e, f, g, h, b'\n',
    ])
}

/// Appends the line of so many zeros.
pub(crate) fn push_zeros(text: &mut Vec<u8>, count: usize) -> Result<(), AllocError>
    ensures { OnOk result (text.new.items ≡ text.old.items ++ (zeros_line count ++ line_end)) }
{
    text.extend_from_slice(b".zero ")?;
    push_decimal(text, count as u64)?;
    text.push(b'\n')?;
    Ok(())
}

/// Appends a byte as a text has it.
fn push_in_text(text: &mut Vec<u8>, b: u8) -> Result<(), AllocError>
    ensures { OnOk result (text.new.items ≡ text.old.items ++ in_text b) }
{
    match b {
        b'\n' => text.extend_from_slice(b"\\n"),
        0 => text.extend_from_slice(b"\\0"),
        b'"' => text.extend_from_slice(b"\\\""),
        b'\\' => text.extend_from_slice(b"\\\\"),
        _ => {
            text.push(b)?;
            Ok(())
        }
    }
}

/// Appends the bytes of a text as it has them.
fn push_inside(text: &mut Vec<u8>, bytes: &[u8]) -> Result<(), AllocError>
    ensures { OnOk result (text.new.items ≡ text.old.items ++ flat_map in_text bytes.now) }
{
    for b in bytes {
        push_in_text(text, *b)?;
    }
    Ok(())
}

/// Appends the line of a text.
pub(crate) fn push_text(text: &mut Vec<u8>, bytes: &[u8]) -> Result<(), AllocError>
    ensures { OnOk result (text.new.items ≡ text.old.items ++ (text_line bytes.now ++ line_end)) }
{
    text.extend_from_slice(b".ascii \"")?;
    push_inside(text, bytes)?;
    text.extend_from_slice(b"\"\n")
}

/// Appends a byte, 0x and the word that the first four of some bytes are.
fn push_word(text: &mut Vec<u8>, before: u8, bytes: &[u8]) -> Result<(), AllocError>
    requires { 4 ≤ length bytes.now }
    ensures { OnOk result (text.new.items
        ≡ text.old.items ++ before ∷ hexadecimal (from_be_bytes w32 (take 4 bytes.now))) }
{
    text.push(before)?;
    text.extend_from_slice(b"0x")?;
    push_hex8(text, word_at(bytes))
}

/// Appends the line of the first words of some bytes, so many of them.
pub(crate) fn push_words(text: &mut Vec<u8>, bytes: &[u8], count: usize) -> Result<(), AllocError>
    requires some { 0 < count }
    requires within { 4 * count ≤ length bytes.now }
    ensures { OnOk result
        (text.new.items ≡ text.old.items ++ (words_line count bytes.now ++ line_end)) }
{
    text.extend_from_slice(b".word")?;
    push_word(text, b' ', bytes)?;
    for index in 1..count {
        let (_, rest) = bytes.split_at(4 * index);
        push_word(text, b',', rest)?;
    }
    text.push(b'\n')?;
    Ok(())
}
