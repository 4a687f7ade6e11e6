//! The rows of a file, line by line.

use crate::row::{Command, Place, Row, Text, Variant};
use crate::status::status_of;
use anyhow::{Result, bail};
use m88_base::Status;
use std::alloc::{AllocError, Global};

/// What the first characters of a line say that it is.
#[derive(Clone, Copy, PartialEq, Eq)]
enum Sign {
    Remark,
    Command,
    Input,
    Repeated,
    Text(Place),
    Status,
    Pieces,
    Variant,
}

/// The signs, each with the characters that say it.
const SIGNS: [(&str, Sign); 10] = [
    ("$ ", Sign::Command),
    ("  ", Sign::Input),
    ("* ", Sign::Repeated),
    ("= ", Sign::Text(Place::Whole)),
    ("^ ", Sign::Text(Place::Front)),
    ("~ ", Sign::Text(Place::Part)),
    (". ", Sign::Text(Place::End)),
    ("! ", Sign::Status),
    ("/ ", Sign::Pieces),
    ("| ", Sign::Variant),
];

/// What stands for the cells of a variant.
const CELLS: [&str; 9] = ["%1", "%2", "%3", "%4", "%5", "%6", "%7", "%8", "%9"];

/// The length of pieces where a row says none.
const PIECE: usize = 7;

/// The greatest length of pieces, and how often a line is repeated at most.
const MOST: usize = 65_536;

/// The rows of a file's text. A line that can't be understood is named by its number.
pub fn rows_of(alloc: Global, text: &str) -> Result<Vec<Row>> {
    let mut rows = Vec::new(alloc);
    let mut above = Sign::Remark;
    let mut number = 0u64;
    for line in text.lines() {
        number = number.saturating_add(1);
        match take_line(alloc, &mut rows, above, number, line) {
            Ok(sign) => above = sign,
            Err(fault) => bail!("{number}: {fault}"),
        }
    }
    match end_row(rows.last_mut()) {
        Ok(()) => Ok(rows),
        Err(fault) => bail!("{number}: {fault}"),
    }
}

/// Takes a line, whose sign is the result.
fn take_line(
    alloc: Global,
    rows: &mut Vec<Row>,
    above: Sign,
    number: u64,
    line: &str,
) -> Result<Sign> {
    let Some((sign, rest)) = split_sign(line) else {
        bail!("a line begins with no sign");
    };
    match sign {
        Sign::Remark => {}
        Sign::Command => take_command(alloc, rows, above, number, rest)?,
        _ => match rows.last_mut() {
            None => bail!("no command stands above"),
            Some(row) => take_rest(alloc, row, sign, above, number, rest)?,
        },
    }
    Ok(sign)
}

/// The sign of a line, and the rest of it.
fn split_sign(line: &str) -> Option<(Sign, &str)> {
    if line.is_empty() || line.starts_with("#") {
        return Some((Sign::Remark, ""));
    }
    for (characters, sign) in SIGNS {
        if let Some(rest) = line.strip_prefix(characters) {
            return Some((sign, rest));
        }
    }
    None
}

/// Takes a command, which begins a row unless one stands directly above it.
fn take_command(
    alloc: Global,
    rows: &mut Vec<Row>,
    above: Sign,
    line: u64,
    words: &str,
) -> Result<()> {
    if above != Sign::Command {
        end_row(rows.last_mut())?;
        rows.push(Row::new(alloc))?;
    }
    let words = String::from_str(alloc, words)?;
    if let Some(row) = rows.last_mut() {
        row.commands.push(Command { line, words })?;
    }
    Ok(())
}

/// Takes a line of a row that is no command.
fn take_rest(
    alloc: Global,
    row: &mut Row,
    sign: Sign,
    above: Sign,
    number: u64,
    rest: &str,
) -> Result<()> {
    match sign {
        Sign::Input => push_line(&mut row.input, rest)?,
        Sign::Repeated => push_repeated(&mut row.input, rest)?,
        Sign::Text(place) => push_text(alloc, row, place, above == sign, rest)?,
        Sign::Status if row.status == Status::Done => row.status = named(rest)?,
        Sign::Status => bail!("a row has one status"),
        Sign::Pieces => push_pieces(&mut row.pieces, rest)?,
        Sign::Variant => push_variant(alloc, row, number, rest)?,
        Sign::Remark | Sign::Command => bail!("the line is none of a row"),
    }
    Ok(())
}

/// Appends a line with its end.
fn push_line(lines: &mut String, line: &str) -> Result<(), AllocError> {
    lines.push_str(line)?;
    lines.push('\n')
}

/// Appends a line of the input as often as the number before it says.
fn push_repeated(lines: &mut String, rest: &str) -> Result<()> {
    let Some((count, line)) = rest.split_once(" ") else {
        bail!("a number and a line stand after `*`");
    };
    let count = number_of(count)?;
    for _ in 0..count {
        push_line(lines, line)?;
    }
    Ok(())
}

/// Appends a line to the text above it, or to a new one.
fn push_text(alloc: Global, row: &mut Row, place: Place, goes_on: bool, line: &str) -> Result<()> {
    if !goes_on {
        row.texts.push(Text {
            place,
            lines: String::new(alloc),
        })?;
    }
    if let Some(text) = row.texts.last_mut() {
        push_line(&mut text.lines, line)?;
    }
    Ok(())
}

/// The status of a name.
fn named(name: &str) -> Result<Status> {
    match status_of(name) {
        Some(status) => Ok(status),
        None => bail!("there is no status {name}"),
    }
}

/// Appends lengths of pieces.
fn push_pieces(pieces: &mut Vec<usize>, rest: &str) -> Result<()> {
    if rest.trim().is_empty() {
        bail!("no length stands after `/`");
    }
    for word in rest.split_whitespace() {
        pieces.push(number_of(word)?)?;
    }
    Ok(())
}

/// A number of at least 1.
fn number_of(word: &str) -> Result<usize> {
    match word.parse::<usize>() {
        Ok(number) if 0 < number && number <= MOST => Ok(number),
        _ => bail!("{word} is no number from 1 to {MOST}"),
    }
}

/// Appends the cells of a variant.
fn push_variant(alloc: Global, row: &mut Row, line: u64, rest: &str) -> Result<()> {
    let mut cells = Vec::new(alloc);
    for cell in rest.split(" | ") {
        cells.push(String::from_str(alloc, cell.trim())?)?;
    }
    if let Some(first) = row.variants.first()
        && first.cells.len() != cells.len()
    {
        bail!("a variant has another number of cells than the first");
    }
    row.variants.push(Variant { line, cells })?;
    Ok(())
}

/// Ends a row, if there is one: it must say what is written, and use each cell.
fn end_row(row: Option<&mut Row>) -> Result<()> {
    let Some(row) = row else {
        return Ok(());
    };
    if row.status == Status::Done && row.texts.is_empty() {
        bail!("the row above doesn't say what is written");
    }
    if let Some(variant) = row.variants.first() {
        see_cells(row, variant.cells.as_slice())?;
    }
    if row.pieces.is_empty() {
        row.pieces.push(PIECE)?;
    }
    Ok(())
}

/// Sees that each cell of the variants stands in a line of their row.
fn see_cells(row: &Row, cells: &[String]) -> Result<()> {
    if CELLS.len() < cells.len() {
        bail!("a variant has more than {} cells", CELLS.len());
    }
    for (sign, _) in CELLS.iter().zip(cells.iter()) {
        if !row.has(sign) {
            bail!("no line of the row above has the cell {sign}");
        }
    }
    Ok(())
}
