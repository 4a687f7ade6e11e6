//! What an input is that a program refuses, as far as its first bytes show.

use m88_base::first_line;
use std::fmt;

/// What a program reads.
#[derive(Clone, Copy, PartialEq, Eq)]
pub enum Wanted {
    /// A source, alone or with a script, a trace or other sources.
    Source,
    Records,
    Objects,
    /// The record of a data fault.
    Fault,
    /// Any bytes.
    Bytes,
}

/// What was given in place of it.
#[derive(Clone, Copy, PartialEq, Eq)]
pub enum Seen {
    Elf,
    Coff,
    Records,
    Report,
    ByteOrderMark,
    Utf16,
    /// Bytes that stand in no text.
    Binary,
}

/// How the inputs that are known by their first bytes begin: ELF, the three kinds of COFF of this processor with fewer
/// than 256 sections, and texts in UTF-8 and UTF-16.
const BEGINNINGS: [(&[u8], Seen); 7] = [
    (b"\x7FELF", Seen::Elf),
    (b"\x01\x60\x00", Seen::Coff),
    (b"\x01\x61\x00", Seen::Coff),
    (b"\x01\x6D\x00", Seen::Coff),
    (b"\xEF\xBB\xBF", Seen::ByteOrderMark),
    (b"\xFE\xFF", Seen::Utf16),
    (b"\xFF\xFE", Seen::Utf16),
];

/// How many bytes at the front of an input are looked at.
const FRONT: usize = 512;

/// How many digits an S-record has at least: its count, an address and the sum.
const RECORD_DIGITS: usize = 8;

impl Seen {
    /// What an input shows that isn't what is wanted; None where it shows nothing.
    pub fn of(input: &[u8], wanted: Wanted) -> Option<Seen> {
        let seen = seen_in(&input[..input.len().min(FRONT)])?;
        if is_told(seen, wanted) {
            Some(seen)
        } else {
            None
        }
    }
}

/// What the front of an input shows.
fn seen_in(front: &[u8]) -> Option<Seen> {
    for (beginning, seen) in BEGINNINGS {
        if front.starts_with(beginning) {
            return Some(seen);
        }
    }
    if front.iter().any(|byte| *byte < b'\t') {
        return Some(Seen::Binary);
    }
    if front.is_empty() {
        return None;
    }
    let (line, rest) = first_line(front);
    if is_record(line) {
        Some(Seen::Records)
    } else if line.starts_with(b"end ") && rest.starts_with(b"retired ") {
        Some(Seen::Report)
    } else {
        None
    }
}

/// Whether that helps whoever wants this: records are records, and of bytes only a header is told.
fn is_told(seen: Seen, wanted: Wanted) -> bool {
    match wanted {
        Wanted::Bytes => seen == Seen::Elf || seen == Seen::Coff,
        Wanted::Records => seen != Seen::Records,
        Wanted::Source | Wanted::Objects | Wanted::Fault => true,
    }
}

/// Whether a line looks like an S-record.
fn is_record(line: &[u8]) -> bool {
    match line {
        [b'S', b'0'..=b'9', digits @ ..] => {
            RECORD_DIGITS <= digits.len() && digits.iter().all(|byte| byte.is_ascii_hexdigit())
        }
        _ => false,
    }
}

impl fmt::Display for Seen {
    fn fmt<W: fmt::Write>(&self, f: &mut fmt::Formatter<W>) -> fmt::Result {
        f.write_str(match self {
            Seen::Elf => "this is ELF: objcopy -I elf32-big -O srec makes S-records of it",
            Seen::Coff => "this is COFF: docs/ROM.md tells how its sections are cut out",
            Seen::Records => "these are S-records: m88 exec runs them, m88 dis lists them",
            Seen::Report => "this is what a run wrote, and no input of a command",
            Seen::ByteOrderMark => "the text begins with a byte order mark: save it as ASCII",
            Seen::Utf16 => "this text is UTF-16: save it as ASCII",
            Seen::Binary => "this is a binary: m88source at ADDRESS makes a source of it",
        })
    }
}
