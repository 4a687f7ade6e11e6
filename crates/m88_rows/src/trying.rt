//! A row tried: each of its commands in each of its pieces and variants.

use crate::row::{Command, Place, Row, Variant};
use crate::status::name_of;
use crate::text::{bytes_of, words_of};
use anyhow::{Result, bail};
use m88_base::{MemSink, MemSource, Status};
use m88_board::Unwatched;
use m88_cli::m88;
use m88_listing::m88list;
use m88_serving::m88serve;
use m88_sourcing::m88source;
use m88_supering::m88super;
use memchr::memmem;
use std::alloc::Global;

/// The room for what a command writes.
const ROOM: usize = 1 << 20;

/// How many rows were tried, and how many were wrong.
#[derive(Drop)]
pub struct Tally {
    pub tried: u64,
    pub wrong: u64,
}

impl Tally {
    /// Nothing tried yet.
    pub fn new() -> Tally {
        Tally { tried: 0, wrong: 0 }
    }

    /// Counts a row.
    pub fn count(&mut self, is_wrong: bool) {
        self.tried = self.tried.saturating_add(1);
        if is_wrong {
            self.wrong = self.wrong.saturating_add(1);
        }
    }
}

/// One of the tries of a row.
#[derive(Drop)]
struct Try<'a> {
    row: &'a Row,
    command: &'a Command,
    piece: usize,
    variant: Option<&'a Variant>,
}

/// Tries a row, and tells what is wrong in each of its tries.
pub fn tried(alloc: Global, row: &Row, tally: &mut Tally) -> Result<Vec<String>> {
    let mut wrong = Vec::new(alloc);
    for command in row.commands.as_slice() {
        for piece in row.pieces.as_slice() {
            let once = Try {
                row,
                command,
                piece: *piece,
                variant: None,
            };
            if row.variants.is_empty() {
                once.count(alloc, tally, &mut wrong)?;
            }
            for variant in row.variants.as_slice() {
                once.of(variant).count(alloc, tally, &mut wrong)?;
            }
        }
    }
    Ok(wrong)
}

impl<'a> Try<'a> {
    /// The same try of a variant.
    fn of(&self, variant: &'a Variant) -> Try<'a> {
        Try {
            row: self.row,
            command: self.command,
            piece: self.piece,
            variant: Some(variant),
        }
    }

    /// Counts the try, and appends what is wrong with it.
    fn count(&self, alloc: Global, tally: &mut Tally, wrong: &mut Vec<String>) -> Result<()> {
        let told = match self.difference(alloc) {
            Ok(told) => told,
            Err(fault) => Some(format!(in alloc; "{fault}")?),
        };
        tally.count(told.is_some());
        if let Some(told) = told {
            wrong.push(self.headed(alloc, told.as_str())?)?;
        }
        Ok(())
    }

    /// What is wrong, below the place of the try in the file.
    fn headed(&self, alloc: Global, told: &str) -> Result<String> {
        let command = self.command;
        let variant = match self.variant {
            Some(variant) => format!(in alloc; ", the variant of line {}", variant.line)?,
            None => String::new(alloc),
        };
        let head = format!(in alloc; "{}: {}", command.line, command.words)?;
        let told = format!(in alloc; "{head} (pieces of {}{variant})\n{told}", self.piece)?;
        Ok(told)
    }

    /// The cells that are put in.
    fn cells(&self) -> Option<&'a [String]> {
        match self.variant {
            Some(variant) => Some(variant.cells.as_slice()),
            None => None,
        }
    }

    /// What was wanted and what came, where that isn't the same.
    fn difference(&self, alloc: Global) -> Result<Option<String>> {
        let (status, held) = self.run(alloc)?;
        if status == self.row.status && self.agrees(alloc, held.as_slice())? {
            return Ok(None);
        }
        let wanted = self.wanted(alloc)?;
        let held = String::from_utf8_lossy(alloc, held.as_slice())?;
        let came = format!(in alloc; "{wanted}came: {}\n{held}", name_of(status))?;
        Ok(Some(came))
    }

    /// The status and the texts that the row wants.
    fn wanted(&self, alloc: Global) -> Result<String> {
        let mut wanted = format!(in alloc; "wanted: {}\n", name_of(self.row.status))?;
        for text in self.row.texts.as_slice() {
            let bytes = bytes_of(alloc, text.lines.as_str(), self.cells())?;
            let lines = String::from_utf8_lossy(alloc, bytes.as_slice())?;
            wanted.push_str(called(text.place))?;
            wanted.push_str(lines.as_str())?;
        }
        Ok(wanted)
    }

    /// Whether each text of the row is where it must be.
    fn agrees(&self, alloc: Global, held: &[u8]) -> Result<bool> {
        let texts = self.row.texts.as_slice();
        if texts.is_empty() {
            return Ok(held.is_empty());
        }
        for text in texts {
            let bytes = bytes_of(alloc, text.lines.as_str(), self.cells())?;
            if bytes.is_empty() && text.place != Place::Whole {
                bail!("a part is empty, which every text has");
            }
            if !stands(text.place, bytes.as_slice(), held) {
                return Ok(false);
            }
        }
        Ok(true)
    }

    /// What the command answers, and what it writes. Words that are no command must call neither source nor sink, so
    /// that the first call of both fails then.
    fn run(&self, alloc: Global) -> Result<(Status, Vec<u8>)> {
        let words = words_of(alloc, self.command.words.as_str(), self.cells())?;
        let input = bytes_of(alloc, self.row.input.as_str(), self.cells())?;
        let failing: &[u32] = match self.row.status {
            Status::Usage => &[0],
            _ => &[],
        };
        let piece = self.piece.max(1);
        let mut source = MemSource::new(alloc, input.as_slice(), piece, failing)?;
        let mut sink = MemSink::new(alloc, ROOM, piece, failing)?;
        let status = answer(alloc, words.as_slice(), &mut source, &mut sink)?;
        Ok((status, Vec::from_slice(alloc, sink.bytes())?))
    }
}

/// What a program answers to words.
fn answer(
    alloc: Global,
    words: &[String],
    source: &mut MemSource,
    sink: &mut MemSink,
) -> Result<Status> {
    let Some((program, words)) = words.split_first() else {
        bail!("a command has no program");
    };
    match program.as_str() {
        "m88" => Ok(m88(alloc, words, source, sink, &mut Unwatched::new())),
        "m88list" => Ok(m88list(alloc, words, source, sink)),
        "m88serve" => Ok(m88serve(alloc, words, source, sink)),
        "m88source" => Ok(m88source(alloc, words, source, sink)),
        "m88super" => Ok(m88super(alloc, words, source, sink)),
        _ => bail!("there is no program {program}"),
    }
}

/// Whether a text stands at a place of what is written.
fn stands(place: Place, text: &[u8], held: &[u8]) -> bool {
    match place {
        Place::Whole => held == text,
        Place::Front => held.starts_with(text),
        Place::Part => memmem::find(held, text).is_some(),
        Place::End => held.ends_with(text),
    }
}

/// What a message calls a text.
fn called(place: Place) -> &'static str {
    match place {
        Place::Whole => "the whole text:\n",
        Place::Front => "the front:\n",
        Place::Part => "a part:\n",
        Place::End => "the end:\n",
    }
}
