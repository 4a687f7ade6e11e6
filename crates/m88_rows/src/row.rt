//! What a row says. Its lines are kept as they stand in the file: cells are put in and bytes are read when it is tried.

use m88_base::Status;
use std::alloc::Global;

/// Where a text stands in what is written.
#[derive(Clone, Copy, PartialEq, Eq, Debug)]
pub enum Place {
    Whole,
    Front,
    Part,
    End,
}

/// A command on a line of the file.
#[derive(Drop)]
pub struct Command {
    pub line: u64,
    pub words: String,
}

/// Lines that stand at a place of what is written.
#[derive(Drop)]
pub struct Text {
    pub place: Place,
    pub lines: String,
}

/// The cells of a variant on a line of the file.
#[derive(Drop)]
pub struct Variant {
    pub line: u64,
    pub cells: Vec<String>,
}

/// Commands, their input, and what they write and answer.
#[derive(Drop)]
pub struct Row {
    pub commands: Vec<Command>,
    pub input: String,
    pub texts: Vec<Text>,
    pub status: Status,
    pub pieces: Vec<usize>,
    pub variants: Vec<Variant>,
}

impl Row {
    /// A row of which no line was read.
    pub fn new(alloc: Global) -> Row {
        Row {
            commands: Vec::new(alloc),
            input: String::new(alloc),
            texts: Vec::new(alloc),
            status: Status::Done,
            pieces: Vec::new(alloc),
            variants: Vec::new(alloc),
        }
    }

    /// Whether a command, the input or a text has this.
    pub fn has(&self, sign: &str) -> bool {
        for command in self.commands.as_slice() {
            if command.words.as_str().contains(sign) {
                return true;
            }
        }
        for text in self.texts.as_slice() {
            if text.lines.as_str().contains(sign) {
                return true;
            }
        }
        self.input.as_str().contains(sign)
    }
}
