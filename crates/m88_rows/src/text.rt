//! Lines of a row as the bytes that they stand for.

use anyhow::{Result, bail};
use std::alloc::Global;

/// How much of a backslash and what follows it has been read.
#[derive(Clone, Copy, PartialEq, Eq)]
enum Escape {
    Outside,
    Backslash,
    High,
    Low(u8),
}

/// The bytes of lines. Each ends in a line feed unless its last character is a backslash.
pub fn bytes_of(alloc: Global, lines: &str, cells: Option<&[String]>) -> Result<Vec<u8>> {
    let mut bytes = Vec::new(alloc);
    for line in lines.lines() {
        let line = filled(alloc, line, cells)?;
        match push_read(&mut bytes, line.as_str())? {
            Escape::Outside => bytes.push(b'\n')?,
            Escape::Backslash => {}
            _ => bail!("a byte has two digits"),
        }
    }
    Ok(bytes)
}

/// The words of a command.
pub fn words_of(alloc: Global, command: &str, cells: Option<&[String]>) -> Result<Vec<String>> {
    let command = filled(alloc, command, cells)?;
    let mut words = Vec::new(alloc);
    for word in command.as_str().split_whitespace() {
        words.push(word_of(alloc, word)?)?;
    }
    Ok(words)
}

/// A word of a command.
fn word_of(alloc: Global, word: &str) -> Result<String> {
    let mut bytes = Vec::new(alloc);
    if push_read(&mut bytes, word)? != Escape::Outside {
        bail!("a word ends in a backslash");
    }
    match String::from_utf8(bytes) {
        Ok(word) => Ok(word),
        Err(_) => bail!("a word is no text"),
    }
}

/// A line with the cells of a variant put in: `%1` is the first one, `%%` a percent sign.
fn filled(alloc: Global, line: &str, cells: Option<&[String]>) -> Result<String> {
    let Some(cells) = cells else {
        return Ok(String::from_str(alloc, line)?);
    };
    let mut text = String::new(alloc);
    let mut is_sign = false;
    for letter in line.chars() {
        if is_sign {
            push_cell(&mut text, letter, cells)?;
            is_sign = false;
        } else if letter == '%' {
            is_sign = true;
        } else {
            text.push(letter)?;
        }
    }
    if is_sign {
        bail!("a percent sign is the last of a line");
    }
    Ok(text)
}

/// Appends what a letter after a percent sign stands for.
fn push_cell(text: &mut String, letter: char, cells: &[String]) -> Result<()> {
    if letter == '%' {
        text.push('%')?;
        return Ok(());
    }
    for (digit, cell) in ('1'..='9').zip(cells.iter()) {
        if digit == letter {
            text.push_str(cell.as_str())?;
            return Ok(());
        }
    }
    bail!("there is no cell %{letter}")
}

/// Appends the bytes of a text, and tells what its end lacks.
fn push_read(bytes: &mut Vec<u8>, text: &str) -> Result<Escape> {
    let mut escape = Escape::Outside;
    for byte in text.as_bytes() {
        escape = match escape {
            Escape::Outside => begun(bytes, *byte)?,
            Escape::Backslash => escaped(bytes, *byte)?,
            Escape::High => Escape::Low(digit_of(*byte)?),
            Escape::Low(high) => ended(bytes, high, *byte)?,
        };
    }
    Ok(escape)
}

/// Appends a byte that is no backslash.
fn begun(bytes: &mut Vec<u8>, byte: u8) -> Result<Escape> {
    if byte == b'\\' {
        return Ok(Escape::Backslash);
    }
    bytes.push(byte)?;
    Ok(Escape::Outside)
}

/// Appends what a letter after a backslash stands for.
fn escaped(bytes: &mut Vec<u8>, letter: u8) -> Result<Escape> {
    let byte = match letter {
        b'x' => return Ok(Escape::High),
        b'.' => return Ok(Escape::Outside),
        b'n' => b'\n',
        b'r' => b'\r',
        b't' => b'\t',
        b'\\' => b'\\',
        _ => bail!("a backslash stands before another letter than x n r t . and itself"),
    };
    bytes.push(byte)?;
    Ok(Escape::Outside)
}

/// Appends the byte of two digits.
fn ended(bytes: &mut Vec<u8>, high: u8, digit: u8) -> Result<Escape> {
    let low = digit_of(digit)?;
    bytes.push(high.wrapping_mul(16) | low)?;
    Ok(Escape::Outside)
}

/// The value of a digit of a byte.
fn digit_of(digit: u8) -> Result<u8> {
    match digit {
        b'0'..=b'9' => Ok(digit - b'0'),
        b'A'..=b'F' => Ok(digit - b'A' + 10),
        _ => bail!("a byte has two digits, 0 to 9 and A to F"),
    }
}
