//! The instructions of a handler, one after the other.
#![tactic(auto, unfolding(crate::specs::Handled::handling_of))]

ghost use Rattle.std.specs.Prelude.{◌≡◌, ◌+◌, ◌-◌, ◌%◌, ◌^◌, ◌<◌, IfOk, OnOk};
ghost use Rattle.m88_isa.specs.Effect.{register};
ghost use Rattle.m88_isa.specs.ImageProgram.{IsProgramOf};
ghost use Rattle.m88_isa.specs.Instr.{IsValid};
ghost use Rattle.m88_isa.specs.Machine.{Program};
ghost use Rattle.m88_handler.specs.Handled.{handling_of, code_of};
ghost use Rattle.m88_handler.specs.Machine.{act_of, done_by, done_next, fetched_at, handled_by, stepped_on, stepped_to, with_change, writes_control};
ghost use Rattle.m88_handler.specs.declared.act.Act.TheVariants.{Reaches, Reads, Works};
ghost use Rattle.m88_handler.specs.Inside.Steps.{CanBeDone, CanStep, HasStepped, IsMakable, KeepsImages, StandsAtWords};

use crate::act::{Act, act_at};
use crate::cause::{Cause, Course};
use crate::controls::{is_unwritable, may_follow, word_of, write};
use crate::handler::Handler;
use crate::memory::put;
use m88_base::{NoMemory, Reg};
use m88_codec::decode;
use m88_ctrl::cr;
use m88_isa::{DATA_ACCESS, Effect, INSTRUCTION_ACCESS, Instr, UNIMPLEMENTED};
use m88_mem::Memory;

impl Handler {
    /// Carries out up to so many instructions, until one isn't followed by the next.
    pub(crate) fn run(&mut self, most: u32) -> Result<Course, NoMemory>
        requires stands { StandsAtWords self.old }
        requires room { self.old.steps + most < 2 ^ 32 - 1 }
        ensures course { IfOk result (λ course. (p : Program) → IsProgramOf (code_of self.old) p
            → (course, handling_of self.new) ≡ handled_by p most (handling_of self.old)) }
        ensures images { OnOk result (KeepsImages self.old self.new) }
    {
        for _done in 0..most {
            match self.step()? {
                Course::GoesOn => {}
                course => return Ok(course),
            }
        }
        Ok(Course::Fails(Cause::Steps))
    }

    /// Carries out the next instruction.
    fn step(&mut self) -> Result<Course, NoMemory>
        requires { CanStep self.old }
        ensures course { IfOk result (λ course. (p : Program) → IsProgramOf (code_of self.old) p
            → (course, handling_of self.new) ≡ done_next p (handling_of self.old)) }
        ensures stepped { OnOk result (HasStepped self.old self.new) }
    {
        let act = self.next_act();
        self.carry_out(act)
    }

    /// What the next instruction does.
    fn next_act(&mut self) -> Act
        requires { CanStep self.old }
        ensures act { (p : Program) → IsProgramOf (code_of self.old) p
            → result ≡ act_of (fetched_at p self.old.pc) (handling_of self.old) }
        ensures fits { CanBeDone result }
        ensures stays { self.new ≡ self.old }
    {
        match instruction_at(&mut self.own, self.pc) {
            Ok(instr) => act_at(
                &instr,
                &self.regs,
                self.control.carry(),
                self.control.mxm(),
                self.pc,
                self.next,
            ),
            Err(vector) => Act::Raises(vector),
        }
    }

    /// Carries out an act.
    fn carry_out(&mut self, act: Act) -> Result<Course, NoMemory>
        requires stands { CanStep self.old }
        requires fits { CanBeDone act }
        ensures course { IfOk result (λ course.
            (course, handling_of self.new) ≡ done_by act (handling_of self.old)) }
        ensures stepped { OnOk result (HasStepped self.old self.new) }
    {
        match act {
            Act::Raises(vector) => Ok(Course::Fails(Cause::Vector(vector))),
            Act::Works(effect) => self.work(&effect),
            Act::Reaches(effect) => self.reach(&effect),
            Act::Reads(d, number) => Ok(self.read_control(d, number)),
            Act::Writes(s1, number) => Ok(self.write_control(number, s1, Reg::ZERO, 0)),
            Act::Swaps(d, s1, number) => {
                let old = self.control.ldcr(number).unwrap_or(0);
                Ok(self.write_control(number, s1, d, old))
            }
            Act::Returns => {
                self.steps += 1;
                Ok(Course::Returns)
            }
        }
    }

    /// Makes the changes of an instruction, its accesses in the handler's space.
    fn work(&mut self, effect: &Effect) -> Result<Course, NoMemory>
        requires stands { CanStep self.old }
        requires fits { IsMakable effect.now }
        ensures course { IfOk result (λ course.
            (course, handling_of self.new) ≡ done_by (Works effect.now) (handling_of self.old)) }
        ensures stepped { OnOk result (HasStepped self.old self.new) }
    {
        self.change(effect);
        self.touch_own(&effect.accesses)?;
        self.go_to(effect.after);
        if self.stopped {
            Ok(Course::Stops)
        } else {
            Ok(Course::GoesOn)
        }
    }

    /// Makes the changes of an instruction, its accesses in the program's space, where their pages are present.
    fn reach(&mut self, effect: &Effect) -> Result<Course, NoMemory>
        requires stands { CanStep self.old }
        requires fits { IsMakable effect.now }
        ensures course { IfOk result (λ course.
            (course, handling_of self.new) ≡ done_by (Reaches effect.now) (handling_of self.old)) }
        ensures stepped { OnOk result (HasStepped self.old self.new) }
    {
        if self.lacks(&effect.accesses) {
            return Ok(Course::Fails(Cause::Vector(DATA_ACCESS)));
        }
        self.change(effect);
        self.touch_user(&effect.accesses)?;
        self.go_to(effect.after);
        Ok(Course::GoesOn)
    }

    /// Makes the changes of an instruction but for its accesses.
    fn change(&mut self, effect: &Effect)
        ensures state { handling_of self.new ≡ with_change effect.now (handling_of self.old) }
        ensures images { KeepsImages self.old self.new }
        ensures steps { self.new.steps ≡ self.old.steps }
    {
        if let Some((r, value)) = effect.reg {
            put(&mut self.regs, r, value);
        }
        self.control.set_carry(effect.carry);
    }

    /// One instruction is done, behind which these stand, by their byte addresses.
    fn go_to(&mut self, after: (u32, u32))
        requires room { self.old.steps < 2 ^ 32 - 1 }
        ensures state { handling_of self.new ≡ stepped_to after (handling_of self.old) }
        ensures images { KeepsImages self.old self.new }
        ensures here { (self.new.pc ≡ after.0) × (self.new.next ≡ after.1) }
        ensures steps { self.new.steps ≡ self.old.steps + 1 }
    {
        (self.pc, self.next) = after;
        self.steps += 1;
    }

    /// A register takes the word of a control register, if there is one.
    fn read_control(&mut self, d: Reg, number: u8) -> Course
        requires stands { CanStep self.old }
        ensures course { (result, handling_of self.new)
            ≡ done_by (Reads d number) (handling_of self.old) }
        ensures stepped { HasStepped self.old self.new }
    {
        let Some(word) = self.control.ldcr(number) else {
            return Course::Fails(Cause::Vector(UNIMPLEMENTED));
        };
        put(&mut self.regs, d, word);
        self.go_on()
    }

    /// A control register takes the word of S1, and D another; or it can't.
    fn write_control(&mut self, number: u8, s1: Reg, d: Reg, old: u32) -> Course
        requires stands { CanStep self.old }
        ensures course { (result, handling_of self.new)
            ≡ writes_control number (register self.old.regs s1) d old (handling_of self.old) }
        ensures stepped { HasStepped self.old self.new }
    {
        let word = register(&self.regs, s1);
        if is_unwritable(number) {
            return Course::Fails(Cause::Vector(UNIMPLEMENTED));
        }
        if number == cr::PSR && !may_follow(word_of(&self.control, cr::PSR), word) {
            return Course::Fails(Cause::Psr);
        }
        put(&mut self.regs, d, old);
        write(&mut self.control, number, word);
        self.go_on()
    }

    /// One instruction is done, and the following one is next.
    fn go_on(&mut self) -> Course
        requires stands { CanStep self.old }
        ensures course { result ≡ Course.GoesOn }
        ensures state { handling_of self.new ≡ stepped_on (handling_of self.old) }
        ensures stepped { HasStepped self.old self.new }
    {
        self.go_to((self.next, self.next.wrapping_add(4)));
        Course::GoesOn
    }
}

/// The instruction at the byte address of a word of the handler's image, which is kept, or the vector that is raised
/// where there is none.
fn instruction_at(own: &mut Memory, addr: u32) -> Result<Instr, u16>
    requires { addr % 4 ≡ 0 }
    ensures found { (p : Program) → IsProgramOf own.old.image p → result ≡ fetched_at p addr }
    ensures valid { IfOk result IsValid }
    ensures stays { own.new ≡ own.old }
{
    if let Some(line) = own.line(addr) {
        return Ok(line.instr);
    }
    let Some(word) = own.fetch(addr) else {
        return Err(INSTRUCTION_ACCESS);
    };
    let Ok(instr) = decode(word) else {
        return Err(UNIMPLEMENTED);
    };
    own.keep(addr, word, instr);
    Ok(instr)
}

/// The value of a register; r0 reads as 0.
fn register(regs: &[u32; 32], r: Reg) -> u32
    ensures { result ≡ register regs.now r }
{
    if r == Reg::ZERO { 0 } else { regs[r.index()] }
}
