//! The event of the letter `i`: the next instruction is issued, is held, or ends the program.

ghost use Rattle.std.specs.Prelude.{◌≡◌, ◌≤◌, ◌%◌, ◌&&◌, [], length, Ok, Some, None, false};
ghost use Rattle.m88_event.specs.declared.letter.Letter.{Letter as LetterValue};
ghost use Rattle.m88_ctrl.specs.ControlRegisters.{carry_of};
ghost use Rattle.m88_isa.specs.Held.{busy_register, is_pending, most_pending};
ghost use Rattle.m88_isa.specs.Instr.{IsValid};
ghost use Rattle.m88_isa.specs.Memory.{recorded};
ghost use Rattle.m88_isa.specs.Operands.{waits_for_empty};
ghost use Rattle.m88_isa.specs.declared.planned.Outline.TheVariants.{Memory as MemoryValue};
ghost use Rattle.m88_mem.specs.Lines.{HasInvolved};
ghost use Rattle.m88_board.specs.Inside.Events.{Brings, BringsOrStays, TellsInstruction, TellsPlan};
ghost use Rattle.m88_board.specs.Inside.NoInstruction.{IsFoundAt, IsFoundNext, IsReadAt};
ghost use Rattle.m88_board.specs.Inside.Turns.{HasTurn, IsDue, IsPlanOf, IsPlanned, planned_by};

use crate::accesses::{prepare, put_in, write};
use crate::board::Board;
use crate::brief::Brief;
use crate::slots::advance;
use crate::told::Told;
use m88_base::{NoMemory, Reg};
use m88_codec::decode;
use m88_event::Why;
use m88_isa::{
    Effect, INSTRUCTION_ACCESS, Instr, MemOp, Outline, UNIMPLEMENTED, accesses_at, no_accesses,
    outline, waits_for_empty,
};
use m88_mem::{Line, Memory};

impl Board {
    /// The letter `i`: nothing where no more may be issued, a bubble is passed over, or the next instruction has its
    /// turn. Where there is none, a vector is raised.
    // Not inlined, so that the loop over the letters stays small where they issue nothing.
    #[inline(never)]
    pub(super) fn issue(&mut self, told: &mut Told) -> Result<Brief, NoMemory>
        ensures brings { BringsOrStays LetterValue.Issue self.old result self.new }
        ensures tells { TellsInstruction self.old told.old result self.new told.new }
    {
        if self.is_idle() {
            return Ok(Brief::Idle);
        }
        if !self.iunit.candidate().v {
            self.pass();
            return Ok(Brief::Bubble);
        }
        match self.fetch() {
            Ok(line) => {
                let taken = self.take_turn(&line, told);
                // Behind the turn, which doesn't promise that the word stays.
                told.word = line.word;
                taken
            }
            Err(vector) => Ok(self.raise(vector)),
        }
    }

    /// The next instruction, or the vector that is raised where there is none.
    fn fetch(&mut self) -> Result<Line, u16>
        requires { IsDue self.old }
        ensures found { IsFoundNext result self.old }
        ensures stays { self.new ≡ self.old }
    {
        let next = self.iunit.candidate().addr;
        self.line_at(next)
    }

    /// The instruction at the byte address of a word, which is kept, or the vector that is raised where there is none.
    fn line_at(&mut self, addr: u32) -> Result<Line, u16>
        requires { addr % 4 ≡ 0 }
        ensures found { IsFoundAt self.old.memory.image addr result }
        ensures stays { self.new ≡ self.old }
    {
        if let Some(line) = self.memory.line(addr) {
            return Ok(line);
        }
        match read_at(&self.memory, addr) {
            Ok(read) => {
                let (word, instr) = read;
                Ok(self.memory.keep(addr, word, instr))
            }
            Err(vector) => Err(vector),
        }
    }

    /// The next instruction in its turn: a register that it uses or writes and that waits holds it, or none does.
    fn take_turn(&mut self, line: &Line, told: &mut Told) -> Result<Brief, NoMemory>
        requires turn { HasTurn line.now.instr self.old }
        requires involved { HasInvolved line.now }
        ensures brings { BringsOrStays LetterValue.Issue self.old result self.new }
        ensures tells { TellsPlan self.old told.old told.new }
    {
        if let Some(r) = self.busy_register(line) {
            return Ok(Brief::Stalled(Why::Busy(r)));
        }
        self.carry_out(&line.instr, told)
    }

    /// The next instruction in its turn, where no register that it uses or writes waits: what its outline tells.
    fn carry_out(&mut self, instr: &Instr, told: &mut Told) -> Result<Brief, NoMemory>
        requires turn { HasTurn instr.now self.old }
        requires free { busy_register (Some instr.now) self.old.pending ≡ None }
        ensures brings { BringsOrStays LetterValue.Issue self.old result self.new }
        ensures tells { TellsPlan self.old told.old told.new }
    {
        match self.outline_next(instr) {
            Outline::Next { reg, carry } => {
                let next = self.iunit.following().addr;
                let after = (next, next.wrapping_add(4));
                Ok(self.change(instr, effect_alone(reg, carry, after, false), told))
            }
            Outline::Flow { reg, after, bubble } => {
                let carry = self.ctrl.carry();
                Ok(self.change(instr, effect_alone(reg, carry, after, bubble), told))
            }
            Outline::Memory { op, d, place } => self.access(instr, op, d, place, told),
            Outline::Raise(vector) => Ok(self.raise(vector)),
            Outline::Trap(vector) => {
                if self.is_pending() {
                    return Ok(Brief::Stalled(Why::Sync));
                }
                self.trap(vector)
            }
        }
    }

    /// The next instruction in its turn, which makes these changes and no access, or waits until nothing is pending.
    // Inlined, so that no changes are put together in memory.
    #[inline(always)]
    fn change(&mut self, instr: &Instr, effect: Effect, told: &mut Told) -> Brief
        requires turn { HasTurn instr.now self.old }
        requires planned { IsPlanned instr.now effect self.old }
        requires alone { effect.accesses ≡ recorded [] }
        requires few { length self.old.pending ≤ most_pending }
        ensures brings { Brings LetterValue.Issue self.old result self.new }
        ensures tells { TellsPlan self.old told.old told.new }
    {
        told.tell(&effect);
        if self.must_wait(instr) {
            return Brief::Stalled(Why::Sync);
        }
        write(&mut self.regs, effect.reg);
        self.ctrl.set_carry(effect.carry);
        advance(&mut self.iunit, &self.memory, effect.after, effect.bubble);
        self.book.retired += 1;
        Brief::Issued
    }

    /// The next instruction in its turn, which loads or stores or does both at a byte address, or waits for room or
    /// until nothing is pending.
    fn access(
        &mut self,
        instr: &Instr,
        op: MemOp,
        d: Reg,
        place: u32,
        told: &mut Told,
    ) -> Result<Brief, NoMemory>
        requires turn { HasTurn instr.now self.old }
        requires free { busy_register (Some instr.now) self.old.pending ≡ None }
        requires plan { IsPlanOf instr.now (planned_by (MemoryValue op d place) self.old) self.old }
        ensures brings { BringsOrStays LetterValue.Issue self.old result self.new }
        ensures tells { TellsPlan self.old told.old told.new }
    {
        let effect = self.effect_at(instr, op, d, place);
        told.tell(&effect);
        if effect.accesses.count > self.dunit.room() {
            return Ok(Brief::Stalled(Why::Full));
        }
        if self.must_wait(instr) {
            return Ok(Brief::Stalled(Why::Sync));
        }
        prepare(&mut self.memory, &effect.accesses)?;
        put_in(&mut self.dunit, &mut self.regs, &effect.accesses);
        advance(&mut self.iunit, &self.memory, effect.after, effect.bubble);
        self.book.retired += 1;
        Ok(Brief::Issued)
    }

    /// What the next instruction does, which loads or stores or does both at a byte address.
    #[inline(always)]
    fn effect_at(&self, instr: &Instr, op: MemOp, d: Reg, place: u32) -> Effect
        requires turn { HasTurn instr.now self.now }
        requires free { busy_register (Some instr.now) self.now.pending ≡ None }
        requires plan { IsPlanOf instr.now (planned_by (MemoryValue op d place) self.now) self.now }
        ensures planned { IsPlanned instr.now result self.now }
        ensures reg { result.reg ≡ None }
        ensures carry { result.carry ≡ carry_of self.now.control }
    {
        let next = self.iunit.following().addr;
        Effect {
            reg: None,
            carry: self.ctrl.carry(),
            accesses: accesses_at(op, d, place, self.regs.numbers()),
            after: (next, next.wrapping_add(4)),
            bubble: false,
        }
    }

    /// Whether an instruction waits until nothing is pending, and something is.
    #[inline(always)]
    fn must_wait(&self, instr: &Instr) -> bool
        requires { IsValid instr.now }
        ensures { result ≡ (is_pending self.now.pending && waits_for_empty instr.now) }
    {
        waits_for_empty(instr) && self.is_pending()
    }

    /// Whether a transaction is pending.
    #[tactic(auto, using(crate::proofs::Issuing::pending_shown))]
    pub(crate) fn is_pending(&self) -> bool
        ensures { result ≡ is_pending self.now.pending }
    {
        self.dunit.oldest().is_some()
    }

    /// What the next instruction does, where no register that it uses or writes waits.
    // Inlined, so that what an outline tells stays in registers.
    #[inline(always)]
    pub(super) fn outline_next(&self, instr: &Instr) -> Outline
        requires turn { HasTurn instr.now self.now }
        requires free { busy_register (Some instr.now) self.now.pending ≡ None }
        ensures { IsPlanOf instr.now (planned_by result self.now) self.now }
    {
        outline(
            instr,
            self.regs.numbers(),
            self.ctrl.carry(),
            self.ctrl.mxm(),
            self.iunit.candidate().addr,
            self.iunit.following().addr,
        )
    }
}

/// The word and the instruction that an image has at the byte address of a word, or the vector that is raised where
/// there is none.
pub(super) fn read_at(memory: &Memory, addr: u32) -> Result<(u32, Instr), u16>
    requires { addr % 4 ≡ 0 }
    ensures { IsReadAt memory.now.image addr result }
{
    let Some(word) = memory.fetch(addr) else {
        return Err(INSTRUCTION_ACCESS);
    };
    let Ok(instr) = decode(word) else {
        return Err(UNIMPLEMENTED);
    };
    Ok((word, instr))
}

/// Changes without an access.
fn effect_alone(reg: Option<(Reg, u32)>, carry: bool, after: (u32, u32), bubble: bool) -> Effect
    ensures { result ≡ record {
      reg = reg;
      carry = carry;
      accesses = recorded [];
      after = after;
      bubble = bubble;
    } }
{
    Effect {
        reg,
        carry,
        accesses: no_accesses(),
        after,
        bubble,
    }
}
