//! The text of a source that is refused.
ghost use Rattle.std.specs.Prelude.{◌≡◌, ◌≤◌, ◌++◌, [], length, map, slice_index_or, OnOk};
ghost use Rattle.std.specs.List.{All};
ghost use Rattle.m88_base.specs.Image.{byte_at};
ghost use Rattle.m88_base.specs.Lines.{line_end, lines_of};
ghost use Rattle.m88_base.specs.Reading.{most_input};
ghost use Rattle.m88_listing.specs.Refused.{below, mark_line, refused_text};
ghost use Rattle.m88_listing.specs.Inside.Slots.{Climb, IsSlot, kept_row, slots_behind};

use crate::bare::NO_LINE;
use crate::column::Column;
use crate::rows::push_part;
use crate::slots::Slot;
use m88_base::{Image, first_line, push_refused};
use std::alloc::AllocError;

/// The first line of what is left of a source, empty where nothing is left.
fn line_here(rest: &[u8]) -> &[u8]
    ensures { result.now ≡ slice_index_or (lines_of rest.now) 0 [] }
{
    if rest.is_empty() {
        return &[];
    }
    let (line, _) = first_line(rest);
    line
}

/// Appends what stands below bytes before a mark.
fn push_below(text: &mut Vec<u8>, bytes: &[u8]) -> Result<(), AllocError>
    ensures { OnOk result (text.new.items ≡ text.old.items ++ map below bytes.now) }
{
    for b in bytes {
        text.push(if *b == b'\t' { b'\t' } else { b' ' })?;
    }
    Ok(())
}

/// Appends the line with the mark below a column, from 1.
fn push_mark(text: &mut Vec<u8>, column: u32, line: &[u8]) -> Result<(), AllocError>
    ensures { OnOk result
        (text.new.items ≡ text.old.items ++ (mark_line column line.now ++ line_end)) }
{
    let (before, _) = line.split_at(line.len().min(column.saturating_sub(1) as usize));
    text.extend_from_slice(b"                                        ")?;
    push_below(text, before)?;
    text.extend_from_slice(b"^\n")?;
    Ok(())
}

/// What is kept of the lines from a number on.
fn slots_behind(slots: &[Slot], number: u64) -> &[Slot]
    requires { Climb 1 slots.now }
    ensures { result.now ≡ slots_behind number slots.now }
{
    let before = slots.partition_point(|slot| u64::from(slot.line) < number);
    let (_, behind) = slots.split_at(before);
    behind
}

/// Appends the text of a source that is refused at a line and a column, both from 1, for a reason, with what is kept of
/// the rows that it shows.
pub(crate) fn push_refusal(
    text: &mut Vec<u8>,
    source: &[u8],
    slots: &[Slot],
    image: &Image,
    line: u32,
    column: u32,
    reason: &[u8],
) -> Result<(), AllocError>
    requires short { length source.now ≤ most_input }
    requires each { All (IsSlot (byte_at image.now)) slots.now }
    requires climb { Climb 1 slots.now }
    ensures { OnOk result (text.new.items ≡ text.old.items
        ++ refused_text (map (kept_row (byte_at image.now)) slots.now) source.now
        (record { line = line; column = column; reason = reason.now })) }
{
    let line = u64::from(line);
    let own = slots_behind(slots, line);
    let after = slots_behind(slots, line + 1);
    let mut columns = Column::new(1);
    let here = push_part(text, &mut columns, source, slots, image, line.max(1))?;
    let rest = push_part(text, &mut columns, here, own, image, line + 1)?;
    push_mark(text, column, line_here(here))?;
    push_refused(text, line, column, reason)?;
    push_part(text, &mut columns, rest, after, image, NO_LINE)?;
    Ok(())
}
