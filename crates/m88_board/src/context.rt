//! Programs that aren't running.

ghost use Rattle.std.specs.Prelude.{List, ◌≡◌, ◌≤◌, true, IfOk};
ghost use Rattle.m88_base.specs.Image.{IsImage};
ghost use Rattle.m88_event.specs.Run.{outcome_at};
ghost use Rattle.m88_event.specs.Timeline.{Moment, Run, is_over, opening_moment, run_with};
ghost use Rattle.m88_event.specs.declared.letter.Letter.{Letter as LetterValue};
ghost use Rattle.m88_isa.specs.ImageProgram.{IsProgramOf};
ghost use Rattle.m88_isa.specs.Machine.{Program};
ghost use Rattle.m88_mem.specs.Marks.{NamesPages, absent_in};
ghost use Rattle.m88_board.specs.Contexts.{StandsFor, mxm_in};
ghost use Rattle.m88_board.specs.Kept.{most_retired};

use crate::board::Board;
use crate::book::Book;
use m88_base::{Absent, Image, NoMemory};
use m88_event::Outcome;
use m88_mem::Memory;
use std::alloc::Global;
use thiserror::Error;

/// The words that the monitor keeps of a program that isn't running.
#[derive(Clone, Copy, Debug)]
pub struct Saved {
    /// r0 to r31.
    pub regs: [u32; 32],
    /// Its status: EPSR, with the carry in bit 28 and MXM in bit 2.
    pub epsr: u32,
    /// The instruction retired last: its byte address in bits 31 to 2, V in bit 1, E in bit 0.
    pub sxip: u32,
    /// The next instruction, in the same form. A bubble has V = 0.
    pub snip: u32,
    /// The instruction behind that one, in the same form.
    pub sfip: u32,
}

/// A program that isn't running, with nothing pending. It holds its image once, in its memory.
#[derive(Drop, Debug)]
pub struct Context {
    pub saved: Saved,
    pub memory: Memory,
    pub book: Book,
}

/// The answer of a board that has transactions pending.
#[derive(Clone, Copy, PartialEq, Eq, Debug, Error)]
#[error("transactions are pending")]
pub struct NotEmpty {
    /// How many, 1 to 3.
    pub pending: u8,
}

impl Context {
    /// The program of an image before its first event, as `Board::new` has it: the pages that are named are absent, it
    /// retires at most `limit` instructions, and `mxm` is the bit MXM of its status.
    pub fn new(
        alloc: Global,
        image: &Image,
        absent: &Absent,
        limit: u32,
        mxm: bool,
    ) -> Result<Context, NoMemory>
        requires pages { NamesPages absent.now }
        requires small { limit ≤ most_retired }
        ensures limit { IfOk result (λ c. c.book.limit ≡ limit) }
        ensures absent { IfOk result (λ c. c.book.absent ≡ absent.now) }
        ensures image { IfOk result (λ c. c.memory.image ≡ image.now) }
        ensures mxm { IfOk result (λ c. mxm_in c.saved.epsr ≡ mxm) }
        ensures events { IfOk result (λ c. c.book.events ≡ 0) }
        ensures is_image { IsImage image.now }
        ensures program { (p : Program) × IsProgramOf image.now p × (p.mxm ≡ mxm) }
        ensures stands { IfOk result (λ c. (p : Program) (schedule : List LetterValue)
            → IsProgramOf image.now p → p.mxm ≡ mxm
            → StandsFor (run_with p (absent_in absent.now) limit schedule) opening_moment c) }
    {
        let board = Board::new(alloc, image, absent, limit, mxm)?;
        Ok(board.into_context())
    }

    /// What a run came to that is over. Where memory runs out, the context is gone.
    pub fn outcome(self) -> Result<Outcome, NoMemory>
        ensures events { IfOk result (λ o. o.events ≡ self.book.events) }
        ensures moment { IfOk result (λ o. (r : Run) (m : Moment)
            → StandsFor r m self → is_over r m ≡ true
            → o ≡ outcome_at r.program m) }
    {
        let saved = self.saved;
        let carry = (saved.epsr >> 28) % 2 == 1;
        self.book.into_outcome(saved.regs, carry, &self.memory)
    }
}
