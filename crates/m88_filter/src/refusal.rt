//! What a person is told of a refusal: where it is, why, and the line with a mark below its column.

use m88_base::Refused;
use std::fmt;

/// How many bytes of a line are shown, and how many of them before the column at most.
const WIDTH: usize = 100;

const BEFORE: usize = 60;

/// What a person is told of a refusal of the input of a program's command, or of a program without commands, whose name
/// is then empty.
#[derive(Clone, Copy)]
pub struct Marked<'a> {
    program: &'a str,
    command: &'a str,
    refused: &'a Refused,
    shows_line: bool,
}

impl<'a> Marked<'a> {
    /// What is told of a refusal; with `shows_line` the line of the input with it, where the refusal has one.
    pub fn of(
        program: &'a str,
        command: &'a str,
        refused: &'a Refused,
        shows_line: bool,
    ) -> Marked<'a> {
        Marked {
            program,
            command,
            refused,
            shows_line,
        }
    }
}

impl<'a> fmt::Display for Marked<'a> {
    fn fmt<W: fmt::Write>(&self, f: &mut fmt::Formatter<W>) -> fmt::Result {
        f.write_str(self.program)?;
        if !self.command.is_empty() {
            write!(f, " {}", self.command)?;
        }
        let refusal = &self.refused.refusal;
        write!(f, ": refused at {}:{}: ", refusal.line(), refusal.column())?;
        put_shown(f, refusal.reason())?;
        match &self.refused.line {
            Some(line) if self.shows_line => {
                put_marked(f, line.as_slice(), refusal.column() as usize)
            }
            _ => Ok(()),
        }
    }
}

/// The line below, and a mark below the byte of a column, which is counted from 1. Of a long line the part around the
/// column is shown.
fn put_marked<W: fmt::Write>(f: &mut fmt::Formatter<W>, line: &[u8], column: usize) -> fmt::Result {
    let at = column.saturating_sub(1).min(line.len());
    let start = if line.len() <= WIDTH {
        0
    } else {
        at.saturating_sub(BEFORE)
    };
    let end = line.len().min(start + WIDTH);
    f.write_str("\n    ")?;
    if start > 0 {
        f.write_str("..")?;
    }
    put_shown(f, &line[start..end])?;
    if end < line.len() {
        f.write_str("..")?;
    }
    f.write_str("\n    ")?;
    if start > 0 {
        f.write_str("  ")?;
    }
    for _ in start..at {
        f.write_str(" ")?;
    }
    f.write_str("^")
}

/// Bytes as a terminal can show them, one place for each: a tab as a blank, all that is no visible character as `?`.
pub fn put_shown<W: fmt::Write>(f: &mut fmt::Formatter<W>, bytes: &[u8]) -> fmt::Result {
    for byte in bytes {
        let shown = match *byte {
            b'\t' => ' ',
            b' '..=b'~' => char::from(*byte),
            _ => '?',
        };
        f.write_char(shown)?;
    }
    Ok(())
}

/// How many bytes of a quoted word are shown.
const QUOTED: usize = 40;

/// A word in quotes as a terminal can show it; the front of a long one.
pub fn put_quoted<W: fmt::Write>(f: &mut fmt::Formatter<W>, word: &str) -> fmt::Result {
    let bytes = word.as_bytes();
    f.write_str("'")?;
    put_shown(f, &bytes[..bytes.len().min(QUOTED)])?;
    f.write_str(if bytes.len() > QUOTED { "..'" } else { "'" })
}
