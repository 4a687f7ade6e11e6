//! The parts of a board.

ghost use Rattle.std.specs.Prelude.{◌≡◌, Some, IfOk};
ghost use Rattle.m88_event.specs.Run.{outcome_by};
ghost use Rattle.m88_mem.specs.DataBus.{image_bus};
ghost use Rattle.m88_board.specs.Inside.Going.{book_from};
ghost use Rattle.m88_board.specs.Parts.{seen_of_parts};

use crate::book::Book;
use m88_base::{Absent, Listed, NoMemory};
use m88_event::{End, Outcome, Record};
use m88_mem::Memory;

/// The parts of a board with nothing pending, from which another may go on (`Board::into_parts`, `Board::resume`).
/// Software that does for a program what the chip leaves to it changes them in between.
#[derive(Debug, Drop)]
pub struct Parts {
    /// Memory, with its image.
    pub memory: Memory,
    /// r0 to r31.
    pub regs: [u32; 32],
    /// The carry.
    pub carry: bool,
    /// The byte address of the next instruction.
    pub pc: u32,
    /// The byte address of the instruction that follows it.
    pub next: u32,
    /// The byte address of the instruction that was retired last, or None where none was.
    pub last: Option<u32>,
    /// The instructions that were retired.
    pub retired: u32,
    /// The transactions that were answered or finished.
    pub done: u32,
    /// The events.
    pub events: u64,
    /// The transactions that were answered with data.
    pub answers: u32,
    /// The output, a byte for each output trap.
    pub out: Listed<u8>,
    /// A record for each data fault, in order.
    pub records: Listed<Record>,
}

impl Parts {
    /// What a run came to that ends here, by an end that need not be its program's: software stops it. Where memory
    /// runs out, the parts are gone.
    pub fn outcome(self, end: End) -> Result<Outcome, NoMemory>
        ensures { IfOk result (λ o. o ≡ outcome_by (image_bus self.memory.image)
            (record (seen_of_parts self) { ended = Some end })) }
    {
        let regs = self.regs;
        let carry = self.carry;
        let limit = self.retired;
        let (memory, book) = self.into_book(limit, Some(end));
        book.into_outcome(regs, carry, &memory)
    }

    /// The memory, and the book with a limit and how the program ended, if it has.
    pub(crate) fn into_book(self, limit: u32, end: Option<End>) -> (Memory, Book)
        ensures { result ≡ (self.memory, book_from self limit end) }
    {
        let book = Book {
            absent: Absent::None,
            limit,
            retired: self.retired,
            done: self.done,
            events: self.events,
            answers: self.answers,
            end,
            out: self.out,
            records: self.records,
        };
        (self.memory, book)
    }
}
