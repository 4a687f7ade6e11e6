//! What a board hands to software that takes an exception in the monitor's place.

ghost use Rattle.std.specs.Prelude.{ℕ, [], ◌≡◌, ◌<◌, ◌↔◌, not, true, false, IfOk, IfSome};
ghost use Rattle.m88_ctrl.specs.ControlRegisters.{mxm_of};
ghost use Rattle.m88_event.specs.Choice.{faults};
ghost use Rattle.m88_event.specs.Local.{choice_by, record_by};
ghost use Rattle.m88_event.specs.declared.letter.Letter.{Letter as LetterValue};
ghost use Rattle.m88_isa.specs.ImageProgram.{IsProgramOf};
ghost use Rattle.m88_isa.specs.Machine.{Program};
ghost use Rattle.m88_board.specs.Board.{local_of};
ghost use Rattle.m88_board.specs.Handed.{AreFound, IsMidway, MeetsFault, TakesNext, handed_over, parts_handed};
ghost use Rattle.m88_board.specs.Inside.NoInstruction.{IsUpcoming};
ghost use Rattle.m88_board.specs.Inside.Turns.{HasTurn, IsDue};
ghost use Rattle.m88_board.specs.Kept.{most_events};
ghost use Rattle.m88_board.specs.Parts.{MayBegin, MayPass, seen_at};

use super::Board;
use super::issue::read_at;
use crate::parts::Parts;
use m88_base::NoMemory;
use m88_event::Record;
use m88_isa::{Instr, Outline};
use m88_mem::PAGE_BYTES;

impl Board {
    /// Whether the letter `r` meets a data fault now: the page of the oldest pending transaction is absent.
    pub fn meets_fault(&self) -> bool
        ensures value { (result ≡ true) ↔ MeetsFault self.now }
        ensures choice { (p : Program) → (result ≡ true)
            ↔ (choice_by p self.now.limit LetterValue.Answer (local_of self.now) ≡ faults) }
    {
        match self.dunit.oldest() {
            Some(oldest) => self.memory.is_absent(oldest.addr / PAGE_BYTES),
            None => false,
        }
    }

    /// The parts of a board that meets a data fault, and the record of it, which is their last: software is to do what
    /// is pending. The event of the letter `r` is counted, what was pending counts as done, a register that waited is
    /// 0, and memory is as it was. Where memory runs out, the board is gone.
    pub fn into_fault(self) -> Result<(Parts, Record), NoMemory>
        requires fault { MeetsFault self }
        requires counted { self.events < most_events }
        ensures record { IfOk result (λ r. (p : Program) → IsProgramOf self.memory.image p
            → r.1 ≡ record_by p self.limit (local_of self)) }
        ensures parts { IfOk result (λ r. r.0 ≡ parts_handed r.0.regs r.1 self) }
        ensures found { IfOk result (λ r. AreFound (local_of self) r.0.regs) }
        ensures seen { IfOk result (λ r. seen_at (mxm_of self.control) (not self.slots.nip.v) r.0
            ≡ handed_over r.0.regs r.1 (local_of self)) }
        ensures begins { IfOk result (λ r. MayBegin r.0 self.limit) }
        ensures passes { IfOk result (λ r. self.slots.nip.v ≡ false → MayPass r.0) }
    {
        let fault = self.pipe();
        let pending = u32::from(self.pending());
        let mut parts = self.take_apart();
        parts.records.push(fault)?;
        parts.done += pending;
        parts.events += 1;
        Ok((parts, fault))
    }

    /// The vector of the exception that the letter `i` takes now, if it takes one: the next word can't be fetched or is
    /// no instruction, or its instruction raises or is a taken trap, the monitor's own for either of its services.
    pub fn next_vector(&self) -> Option<u16>
        ensures takes { TakesNext result self.now }
        ensures midway { IfSome result (λ vector. IsMidway self.now) }
    {
        if self.is_idle() {
            return None;
        }
        if self.is_pending() {
            return None;
        }
        if !self.iunit.candidate().v {
            return None;
        }
        match self.upcoming() {
            Ok(instr) => self.vector_in_turn(&instr),
            Err(vector) => Some(vector),
        }
    }

    /// The next instruction, or the vector that is raised where there is none.
    fn upcoming(&self) -> Result<Instr, u16>
        requires { IsDue self.now }
        ensures { IsUpcoming result self.now }
    {
        let next = self.iunit.candidate().addr;
        if let Some(line) = self.memory.line(next) {
            return Ok(line.instr);
        }
        match read_at(&self.memory, next) {
            Ok(read) => {
                let (_word, instr) = read;
                Ok(instr)
            }
            Err(vector) => Err(vector),
        }
    }

    /// The vector of the next instruction in its turn, where nothing is pending.
    fn vector_in_turn(&self, instr: &Instr) -> Option<u16>
        requires turn { HasTurn instr.now self.now }
        requires empty { self.now.pending ≡ [] }
        ensures { TakesNext result self.now }
    {
        match self.outline_next(instr) {
            Outline::Raise(vector) => Some(vector),
            Outline::Trap(vector) => Some(vector),
            Outline::Next { .. } => None,
            Outline::Flow { .. } => None,
            Outline::Memory { .. } => None,
        }
    }
}
