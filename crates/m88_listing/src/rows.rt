//! The lines of a source with what they put where.
ghost use Rattle.std.specs.Prelude.{◌≡◌, ◌+◌, ◌≤◌, ◌<◌, ◌^◌, ◌++◌, length, IfOk, OnOk};
ghost use Rattle.std.specs.List.{All};
ghost use Rattle.m88_base.specs.Image.{byte_at};
ghost use Rattle.m88_base.specs.Lines.{lines_of, text_of_lines};
ghost use Rattle.m88_base.specs.Reading.{most_input};
ghost use Rattle.m88_listing.specs.Rows.{further_from, row_lines};
ghost use Rattle.m88_listing.specs.Inside.Pushed.{PushesRows};
ghost use Rattle.m88_listing.specs.Inside.Slots.{Climb, IsSlot, kept_row, walked};

use crate::bare::{NO_LINE, push_lines};
use crate::column::Column;
use crate::columns::{MOST_SHOWN, push_counted, push_further, push_shown, push_value};
use crate::slots::{Shown, Slot};
use m88_base::{Image, first_line};
use std::alloc::AllocError;

/// Appends the lines of the bytes behind the eight that the first line shows from an address on.
fn push_further_lines(text: &mut Vec<u8>, at: u32, behind: &[u8]) -> Result<(), AllocError>
    requires { 0 < length behind.now → at + 8 + length behind.now ≤ 2 ^ 32 }
    ensures { OnOk result (text.new.items ≡ text.old.items
        ++ text_of_lines (further_from at 1 behind.now)) }
{
    let mut number = 1;
    for piece in behind.chunks(MOST_SHOWN) {
        push_further(text, at + (number * MOST_SHOWN) as u32, piece)?;
        number += 1;
    }
    Ok(())
}

/// Appends the lines for a line of a source with what is kept of its row.
fn push_row(
    text: &mut Vec<u8>,
    number: u64,
    line: &[u8],
    slot: &Slot,
    image: &Image,
) -> Result<(), AllocError>
    requires { IsSlot (byte_at image.now) slot.now }
    ensures { OnOk result (text.new.items ≡ text.old.items
        ++ text_of_lines (row_lines number line.now (kept_row (byte_at image.now) slot.now))) }
{
    match slot.shown {
        Shown::Zeros => {
            push_counted(text, number, slot.at, slot.len, line)?;
            Ok(())
        }
        Shown::Value => {
            push_value(text, number, slot.at, line)?;
            Ok(())
        }
        Shown::Bytes => push_bytes(text, number, line, slot, image),
    }
}

/// Appends the lines for a line of a source with what is kept of bytes, which are shown one by one.
fn push_bytes(
    text: &mut Vec<u8>,
    number: u64,
    line: &[u8],
    slot: &Slot,
    image: &Image,
) -> Result<(), AllocError>
    requires kept { IsSlot (byte_at image.now) slot.now }
    requires bytes { slot.now.shown ≡ Shown.Bytes }
    ensures { OnOk result (text.new.items ≡ text.old.items
        ++ text_of_lines (row_lines number line.now (kept_row (byte_at image.now) slot.now))) }
{
    let (bytes, _) = image.rest(slot.at).split_at(slot.len);
    let (shown, behind) = bytes.split_at(slot.len.min(MOST_SHOWN));
    push_shown(text, number, slot.at, shown, line)?;
    push_further_lines(text, slot.at, behind)?;
    Ok(())
}

/// Appends the lines for what is left of a source up to the line that has a number, with what is kept of their rows,
/// and answers what is left then.
pub(crate) fn push_part<'a>(
    text: &mut Vec<u8>,
    column: &mut Column,
    source: &'a [u8],
    slots: &[Slot],
    image: &Image,
    until: u64,
) -> Result<&'a [u8], AllocError>
    requires short { column.old + length source.now < 10 ^ 7 }
    requires each { All (IsSlot (byte_at image.now)) slots.now }
    requires climb { Climb column.old slots.now }
    requires forward { column.old ≤ until }
    ensures { IfOk result (λ left. PushesRows (byte_at image.now) slots.now source.now column.old
        until column.new text.old.items text.new.items left.now) }
{
    let mut rest = source;
    for slot in slots {
        let stop = u64::from(slot.line).min(until);
        let here = push_lines(text, column, rest, stop)?;
        if stop == until {
            return Ok(here);
        }
        if here.is_empty() {
            return Ok(here);
        }
        let (line, behind) = first_line(here);
        push_row(text, column.number(), line, slot, image)?;
        column.count_on();
        rest = behind;
    }
    push_lines(text, column, rest, until)
}

/// Appends the lines for all lines of a source, with what is kept of the rows of its image.
pub(crate) fn push_source(
    text: &mut Vec<u8>,
    source: &[u8],
    slots: &[Slot],
    image: &Image,
) -> Result<(), AllocError>
    requires short { length source.now ≤ most_input }
    requires each { All (IsSlot (byte_at image.now)) slots.now }
    requires climb { Climb 1 slots.now }
    ensures { OnOk result (text.new.items ≡ text.old.items
        ++ text_of_lines (walked (byte_at image.now) 1 (lines_of source.now) slots.now)) }
{
    let mut column = Column::new(1);
    push_part(text, &mut column, source, slots, image, NO_LINE)?;
    Ok(())
}
