//! The lines of a listing as text.
ghost use Rattle.std.specs.Prelude.{◌≡◌, ◌-◌, ◌≤◌, ◌++◌, length, decimal, codes, OnOk};
ghost use Rattle.m88_base.specs.Hex.{hex8};
ghost use Rattle.m88_base.specs.Lines.{line_end};
ghost use Rattle.m88_listing.specs.Columns.{at_right, blanks, columns, further_columns};
ghost use Rattle.m88_listing.specs.Rows.{digits};

use itoa::Buffer;
use m88_base::{push_decimal, push_hex2, push_hex8};
use std::alloc::AllocError;

/// How many bytes a line shows.
pub(crate) const MOST_SHOWN: usize = 8;

/// Appends so many blanks, sixteen at most.
fn push_blanks(text: &mut Vec<u8>, count: usize) -> Result<(), AllocError>
    requires { count ≤ 16 }
    ensures { OnOk result (text.new.items ≡ text.old.items ++ blanks count) }
{
    let len = text.len();
    text.resize(len + count, b' ')?;
    Ok(())
}

/// Appends a number at the right of its column.
fn push_number(text: &mut Vec<u8>, number: u64) -> Result<(), AllocError>
    ensures { OnOk result (text.new.items ≡ text.old.items ++ at_right 7 (decimal number)) }
{
    let mut buffer = Buffer::new();
    let digits = buffer.format(number).as_bytes();
    push_blanks(text, 7usize.saturating_sub(digits.len()))?;
    text.extend_from_slice(digits)?;
    Ok(())
}

/// Appends bytes in two digits each.
fn push_digits(text: &mut Vec<u8>, bytes: &[u8]) -> Result<(), AllocError>
    ensures { OnOk result (text.new.items ≡ text.old.items ++ digits bytes.now) }
{
    for b in bytes {
        push_hex2(text, *b)?;
    }
    Ok(())
}

/// Appends the columns for a number and an address, the bytes' column at its beginning.
fn push_place(text: &mut Vec<u8>, number: u64, at: u32) -> Result<(), AllocError>
    ensures { OnOk result (text.new.items ≡ text.old.items
        ++ (at_right 7 (decimal number) ++ blanks 2 ++ hex8 at ++ blanks 2)) }
{
    push_number(text, number)?;
    text.extend_from_slice(b"  ")?;
    push_hex8(text, at)?;
    text.extend_from_slice(b"  ")?;
    Ok(())
}

/// Fills the bytes' column, which begins there, and appends the line of the source.
fn push_line(text: &mut Vec<u8>, begin: usize, line: &[u8]) -> Result<(), AllocError>
    requires { begin ≤ length text.old.items }
    ensures { OnOk result (text.new.items ≡ text.old.items
        ++ (blanks (16 - (length text.old.items - begin)) ++ blanks 5 ++ line.now ++ line_end)) }
{
    let width = text.len() - begin;
    push_blanks(text, 16usize.saturating_sub(width))?;
    text.extend_from_slice(b"     ")?;
    text.extend_from_slice(line)?;
    text.push(b'\n')?;
    Ok(())
}

/// Appends a line of the source with zeros that are told as a count.
pub(crate) fn push_counted(
    text: &mut Vec<u8>,
    number: u64,
    at: u32,
    count: usize,
    line: &[u8],
) -> Result<(), AllocError>
    ensures { OnOk result (text.new.items ≡ text.old.items
        ++ (columns number (hex8 at) (codes "00 x " ++ decimal count) ++ line.now ++ line_end)) }
{
    push_place(text, number, at)?;
    let begin = text.len();
    text.extend_from_slice(b"00 x ")?;
    push_decimal(text, count as u64)?;
    push_line(text, begin, line)?;
    Ok(())
}

/// Appends a line of the source with the bytes that it shows.
pub(crate) fn push_shown(
    text: &mut Vec<u8>,
    number: u64,
    at: u32,
    bytes: &[u8],
    line: &[u8],
) -> Result<(), AllocError>
    ensures { OnOk result (text.new.items ≡ text.old.items
        ++ (columns number (hex8 at) (digits bytes.now) ++ line.now ++ line_end)) }
{
    push_place(text, number, at)?;
    let begin = text.len();
    push_digits(text, bytes)?;
    push_line(text, begin, line)?;
    Ok(())
}

/// Appends a line of the source with the value that it gives a name.
pub(crate) fn push_value(
    text: &mut Vec<u8>,
    number: u64,
    value: u32,
    line: &[u8],
) -> Result<(), AllocError>
    ensures { OnOk result (text.new.items ≡ text.old.items
        ++ (columns number (hex8 value) (codes "=") ++ line.now ++ line_end)) }
{
    push_place(text, number, value)?;
    let begin = text.len();
    text.push(b'=')?;
    push_line(text, begin, line)?;
    Ok(())
}

/// Appends a further line of bytes.
pub(crate) fn push_further(text: &mut Vec<u8>, at: u32, bytes: &[u8]) -> Result<(), AllocError>
    ensures { OnOk result (text.new.items ≡ text.old.items
        ++ (further_columns (hex8 at) (digits bytes.now) ++ line_end)) }
{
    text.extend_from_slice(b"         ")?;
    push_hex8(text, at)?;
    text.extend_from_slice(b"  ")?;
    push_digits(text, bytes)?;
    text.push(b'\n')?;
    Ok(())
}
