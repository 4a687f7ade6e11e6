//! The lines of bytes that are no code.
ghost use Rattle.std.specs.Prelude.{◌≡◌, ◌+◌, ◌++◌, ◌%◌, ◌<◌, ◌≤◌, ◌^◌, ℕ, IfOk, IsTrue, OnOk, drop, length};
ghost use Rattle.std.specs.FinSet.{contains};
ghost use Rattle.m88_base.specs.Appended.{AreAppended};
ghost use Rattle.m88_base.specs.Image.{ProgramImage};
ghost use Rattle.m88_base.specs.Lines.{line_end};
ghost use Rattle.m88_sourcing.specs.Data.{AreDataLines, item_length, item_line};
ghost use Rattle.m88_sourcing.specs.Inside.Appended.{FrontAppended};
ghost use Rattle.m88_sourcing.specs.Inside.Members.{OutlinesImage, IsOutlined};
ghost use Rattle.m88_sourcing.specs.Said.{Said};
ghost use Rattle.m88_sourcing.specs.Source.{AreLooseLines, IsStretch};

use crate::item::{Finding, Item};
use crate::lines::{push_label_at, push_text, push_words, push_zeros};
use crate::outline::Outline;
use crate::words::Words;
use m88_disasm::push_byte;
use std::alloc::AllocError;

/// Appends the line of an item that stands first of some bytes.
fn push_item(text: &mut Vec<u8>, bytes: &[u8], item: Item) -> Result<(), AllocError>
    requires within { item_length item ≤ length bytes.now }
    requires some { 0 < item_length item }
    ensures { OnOk result
        (text.new.items ≡ text.old.items ++ (item_line bytes.now item ++ line_end)) }
{
    match item {
        Item::Zeros(count) => push_zeros(text, count),
        Item::Text(count) => push_text(text, &bytes[..count]),
        Item::Words(count) => push_words(text, bytes, count),
        Item::Lone => push_byte(text, bytes[0]),
    }
}

/// Appends the lines of bytes from an address on, between two labels.
fn push_data(text: &mut Vec<u8>, at: u32, bytes: &[u8]) -> Result<(), AllocError>
    requires { at + length bytes.now ≤ 2 ^ 32 }
    ensures { OnOk result (AreAppended (AreDataLines at bytes.now) text.old.items text.new.items) }
{
    let mut finding = Finding::new(at, bytes);
    let mut done = 0;
    while done < bytes.len() {
        let item = finding.item_at(done);
        let (_, rest) = bytes.split_at(done);
        push_item(text, rest, item)?;
        done += item.len();
    }
    Ok(())
}

/// How many of the bytes from an address on come before the next label behind the first byte.
pub(crate) fn stretch_len(labels: &Words, at: u32, bytes: &[u8]) -> usize
    requires some { 0 < length bytes.now }
    requires fits { at + length bytes.now ≤ 2 ^ 32 }
    requires whole { (a : ℕ) → IsTrue (contains labels.now a) → a % 4 ≡ 0 }
    ensures { IsStretch (λ a. IsTrue (contains labels.now a)) at bytes.now result }
{
    let mut len = 4 - at as usize % 4;
    while len < bytes.len() && !labels.contains(at + len as u32) {
        len += 4;
    }
    len.min(bytes.len())
}

/// Appends the lines of the bytes from an address on up to the next label, and answers how many these are.
fn push_stretch(
    text: &mut Vec<u8>,
    outline: &Outline,
    at: u32,
    bytes: &[u8],
) -> Result<usize, AllocError>
    requires outlined { (image : ProgramImage) × IsOutlined image outline.now }
    requires some { 0 < length bytes.now }
    requires fits { at + length bytes.now ≤ 2 ^ 32 }
    ensures lines { IfOk result (λ n. (image : ProgramImage) (said : Said)
        → OutlinesImage image said outline.now
        → FrontAppended (AreLooseLines image said at bytes.now)
        (AreLooseLines image said (at + n) (drop n bytes.now)) text.old.items text.new.items) }
    ensures some { IfOk result (λ n. 0 < n) }
    ensures within { IfOk result (λ n. n ≤ length bytes.now) }
{
    let len = stretch_len(&outline.labels, at, bytes);
    push_label_at(text, outline.labels.contains(at), at)?;
    push_data(text, at, &bytes[..len])?;
    Ok(len)
}

/// Appends the lines of bytes from an address on that are no code.
pub(crate) fn push_loose(
    text: &mut Vec<u8>,
    outline: &Outline,
    at: u32,
    bytes: &[u8],
) -> Result<(), AllocError>
    requires outlined { (image : ProgramImage) × IsOutlined image outline.now }
    requires fits { at + length bytes.now ≤ 2 ^ 32 }
    ensures { OnOk result ((image : ProgramImage) (said : Said)
        → OutlinesImage image said outline.now
        → AreAppended (AreLooseLines image said at bytes.now)
        text.old.items text.new.items) }
{
    let mut done = 0;
    while done < bytes.len() {
        let (_, rest) = bytes.split_at(done);
        let len = push_stretch(text, outline, at + done as u32, rest)?;
        done += len;
    }
    Ok(())
}
