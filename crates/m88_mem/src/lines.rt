//! Instructions that were read from an image, kept by their addresses.
ghost use Rattle.std.specs.Prelude.{◌≡◌, IfOk, IfSome};
ghost use Rattle.m88_base.specs.Image.{ProgramImage};
ghost use Rattle.m88_mem.specs.Inside.Lines.{AreLines, IsWordAt};
ghost use Rattle.m88_mem.specs.Lines.{IsLine};

use crate::places::fetched;
use m88_base::{Image, NoMemory};
use m88_isa::{Instr, uses, writes};
use std::alloc::Global;
use std::marker::Model;

/// How many are kept at most: one for the addresses of words that are so many words apart.
const LINES: usize = 4096;

/// An instruction that was read, with its byte address and its word.
#[derive(Clone, Copy, Debug)]
pub struct Line {
    pub addr: u32,
    pub word: u32,
    pub instr: Instr,
    /// The registers that it uses or writes, bit n for register n.
    pub involved: u32,
    /// Whether the image lacks a byte of the word behind it.
    pub lacks_behind: bool,
}

/// Instructions by the places of their addresses.
#[derive(Drop, Debug)]
pub(crate) struct KeptLines {
    lines: Vec<Option<Line>>,
}

impl Model for KeptLines {
    ghost use Rattle.std.specs.Prelude.{◌≡◌, List, Option, length};
    ghost use Rattle.m88_mem.specs.declared.lines.Line.{Line};

    ghost Value = { List (Option Line) };

    ghost use Rattle.m88_mem.specs.Inside.Lines.{line_count};

    ghost view = { λ kept. kept.lines.items };

    ghost invariant = { λ kept. length kept.lines.items ≡ line_count };
}

impl KeptLines {
    /// No instruction is kept.
    pub fn new(alloc: Global) -> Result<KeptLines, NoMemory>
        ensures { IfOk result (λ kept. (image : ProgramImage) → AreLines image kept) }
    {
        let lines = vec![in alloc; None; LINES]?;
        Ok(KeptLines { lines })
    }

    /// The instruction that is kept of an address, if one is.
    pub fn line(&self, addr: u32) -> Option<Line>
        ensures { IfSome result (λ line. (line.addr ≡ addr)
            × ((image : ProgramImage) → AreLines image self.now → IsLine image line)) }
    {
        let line = self.lines[(addr / 4) as usize % LINES]?;
        if line.addr == addr { Some(line) } else { None }
    }

    /// Keeps an instruction in place of the one that has its place.
    pub fn keep(&mut self, line: Line)
        ensures { (image : ProgramImage) → IsLine image line → AreLines image self.old
            → AreLines image self.new }
    {
        self.lines[(line.addr / 4) as usize % LINES] = Some(line);
    }
}

/// The instruction of a word at an address, with what is kept beside it.
pub(crate) fn line_of(image: &Image, addr: u32, word: u32, instr: Instr) -> Line
    requires { IsWordAt image.now addr word instr }
    ensures { (result.addr ≡ addr) × IsLine image.now result }
{
    Line {
        addr,
        word,
        instr,
        involved: uses(&instr) | writes(&instr),
        lacks_behind: fetched(image, addr.wrapping_add(4)).is_none(),
    }
}
