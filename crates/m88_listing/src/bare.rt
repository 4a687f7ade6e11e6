//! The lines of a source that give no bytes, behind their numbers.
ghost use Rattle.std.specs.Prelude.{◌+◌, ◌<◌, ◌^◌, ◌++◌, length, IfOk};
ghost use Rattle.m88_listing.specs.Inside.Pushed.{PushesFirst, PushesLines};

use crate::block::Block;
use crate::column::Column;
use m88_base::first_line;
use std::alloc::AllocError;

/// A number that no line has: a source has fewer lines.
pub(crate) const NO_LINE: u64 = 10_000_000;

/// Adds the first line of what is left of a source to a text and the block behind it, and answers what is left then.
fn push_next<'a>(
    text: &mut Vec<u8>,
    block: &mut Block,
    column: &Column,
    rest: &'a [u8],
) -> Result<&'a [u8], AllocError>
    requires { 0 < length rest.now }
    ensures { IfOk result (λ left. PushesFirst column.now rest.now
        (text.old.items ++ block.old) (text.new.items ++ block.new) left.now) }
{
    block.make_room(text)?;
    if let Some(left) = column.put_short(block, rest) {
        return Ok(left);
    }
    block.append_to(text)?;
    let (line, left) = first_line(rest);
    column.push_line(text, line)?;
    Ok(left)
}

/// Appends the lines of what is left of a source behind their numbers, up to the line that has a number, or all where
/// no line has it, and answers what is left then.
pub(crate) fn push_lines<'a>(
    text: &mut Vec<u8>,
    column: &mut Column,
    source: &'a [u8],
    until: u64,
) -> Result<&'a [u8], AllocError>
    requires { column.old + length source.now < 10 ^ 7 }
    ensures { IfOk result (λ left.
        PushesLines source.now column.old until column.new text.old.items text.new.items left.now) }
{
    if source.is_empty() || column.number() == until {
        return Ok(source);
    }
    let mut block = Block::new();
    let mut rest = source;
    while !rest.is_empty() && column.number() != until {
        let behind = push_next(text, &mut block, column, rest)?;
        column.count_on();
        rest = behind;
    }
    block.append_to(text)?;
    Ok(rest)
}
