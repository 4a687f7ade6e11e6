//! A follower of a program's history: its registers and its memory, step by step, with all of memory there.

ghost use Rattle.std.specs.Prelude.{◌≡◌, ◌++◌, false, IfOk, OnOk};
ghost use Rattle.m88_base.specs.Reg.{with_register};
ghost use Rattle.m88_isa.specs.Bus.{after_access, after_accesses, listed, stored};
ghost use Rattle.m88_isa.specs.Machine.{with_written};
ghost use Rattle.m88_isa.specs.Memory.{AreWordAccesses, IsWordAccess};
ghost use Rattle.m88_mem.specs.DataBus.{bus_of};
ghost use Rattle.m88_trace.specs.Inside.Doings.{BeginsHistory, CanDo, CanMake, HasCells, HasDone, IsNextTraceLine, IsReady, cells_of, ends_by};
ghost use Rattle.m88_trace.specs.Lines.{access_text, accesses_text, datum_by};
ghost use Rattle.m88_trace.specs.declared.doing.Doing.TheVariants as doings;

use crate::doing::{Doing, Place, doing_at};
use crate::parts::{push_access, push_head, push_line_end, push_output, push_written};
use m88_base::{Absent, Image, NoMemory, Reg, push_hex8};
use m88_isa::{Access, Accesses, Effect, datum};
use m88_mem::Memory;
use m88_report::push_end;
use std::alloc::Global;

/// A follower of a program's history, which stands at one of its states. MXM is clear.
#[derive(Drop, Debug)]
pub struct Follower {
    pub regs: [u32; 32],
    pub carry: bool,
    /// The byte address of the next instruction.
    pub pc: u32,
    /// The byte address of the one that follows it.
    pub next: u32,
    pub memory: Memory,
}

impl Follower {
    /// A follower at the opening state of the program of an image.
    pub(crate) fn new(alloc: Global, image: &Image) -> Result<Follower, NoMemory>
        ensures { IfOk result (BeginsHistory image.now) }
    {
        let memory = Memory::new(alloc, image, &Absent::None)?;
        let pc = image.start() / 4 * 4;
        Ok(Follower {
            regs: [0; 32],
            carry: false,
            pc,
            next: pc.wrapping_add(4),
            memory,
        })
    }

    /// Puts the line of the next step into a text, in place of what it had, and goes on to the state behind it. The
    /// answer is whether the program ended. Where memory runs out, both are anything.
    pub(crate) fn next_line(&mut self, number: u32, line: &mut Vec<u8>) -> Result<bool, NoMemory>
        requires { IsReady self.old }
        ensures { IfOk result (λ ended. IsNextTraceLine number line.new.items self.old ended
            self.new) }
    {
        line.clear();
        let word = self.memory.fetch(self.pc);
        let doing = doing_at(word, &self.regs, self.place());
        self.carry_out(number, word.unwrap_or(0), &doing, line)
    }

    /// Where the next instruction stands.
    fn place(&self) -> Place
        ensures { result ≡ record {
          carry = self.now.carry;
          pc = self.now.pc;
          next = self.now.next;
        } }
    {
        Place {
            carry: self.carry,
            pc: self.pc,
            next: self.next,
        }
    }

    /// Carries an instruction out, and appends its line. The answer is whether the program ended.
    fn carry_out(
        &mut self,
        number: u32,
        word: u32,
        doing: &Doing,
        line: &mut Vec<u8>,
    ) -> Result<bool, NoMemory>
        requires { CanDo doing.now self.old }
        ensures done { OnOk result (HasDone number word doing.now self.old self.new line.old.items
            line.new.items) }
        ensures ended { IfOk result (λ ended. ended ≡ ends_by doing.now) }
    {
        match doing {
            Doing::Goes(effect) => {
                self.go(number, word, effect, line)?;
                Ok(false)
            }
            Doing::Outputs(byte) => {
                self.put_out(number, word, *byte, line)?;
                Ok(false)
            }
            Doing::Ends(end) => {
                push_end(line, *end)?;
                Ok(true)
            }
        }
    }

    /// Makes the changes of an instruction.
    #[tactic(auto, unfolding(crate::specs::Inside::Doings::after_doing))]
    fn go(
        &mut self,
        number: u32,
        word: u32,
        effect: &Effect,
        line: &mut Vec<u8>,
    ) -> Result<(), NoMemory>
        requires { CanDo (doings.Goes effect.now) self.old }
        ensures { OnOk result (HasDone number word (doings.Goes effect.now) self.old self.new
            line.old.items line.new.items) }
    {
        push_head(line, number, self.pc, word)?;
        push_written(line, effect.reg)?;
        self.write(effect.reg);
        self.make_all(&effect.accesses, line)?;
        push_line_end(line)?;
        self.carry = effect.carry;
        self.pc = effect.after.0;
        self.next = effect.after.1;
        Ok(())
    }

    /// Puts a byte out, which nothing keeps, and goes on.
    #[tactic(auto, unfolding(crate::specs::Inside::Doings::after_doing))]
    fn put_out(
        &mut self,
        number: u32,
        word: u32,
        byte: u8,
        line: &mut Vec<u8>,
    ) -> Result<(), NoMemory>
        requires ready { IsReady self.old }
        ensures { OnOk result (HasDone number word (doings.Outputs byte) self.old self.new
            line.old.items line.new.items) }
    {
        push_head(line, number, self.pc, word)?;
        push_output(line, byte)?;
        push_line_end(line)?;
        self.pc = self.next;
        self.next = self.next.wrapping_add(4);
        Ok(())
    }

    /// Makes accesses in order, and appends their texts.
    #[tactic(auto, unfolding(crate::specs::Lines::accesses_text, m88_isa::specs::Bus::after_accesses))]
    fn make_all(&mut self, accesses: &Accesses, line: &mut Vec<u8>) -> Result<(), NoMemory>
        requires ready { IsReady self.old }
        requires made { AreWordAccesses accesses.now.count accesses.now }
        ensures line { OnOk result (line.new.items ≡ line.old.items
            ++ accesses_text (listed accesses.now) (bus_of self.old.memory)) }
        ensures cells { OnOk result (HasCells
            (after_accesses (listed accesses.now) (cells_of self.old)) self.old self.new) }
    {
        if accesses.count == 0 {
            return Ok(());
        }
        self.make(&accesses.first, line)?;
        if accesses.count == 1 {
            return Ok(());
        }
        self.make(&accesses.second, line)
    }

    /// Makes an access, and appends its text.
    fn make(&mut self, access: &Access, line: &mut Vec<u8>) -> Result<(), NoMemory>
        requires { CanMake access.now self.old }
        ensures line { OnOk result (line.new.items ≡ line.old.items
            ++ access_text access.now (bus_of self.old.memory)) }
        ensures cells { OnOk result (HasCells (after_access access.now (cells_of self.old)) self.old
            self.new) }
    {
        push_access(line, access)?;
        let datum = self.access(access)?;
        push_hex8(line, datum)?;
        Ok(())
    }

    /// Makes an access, and answers its datum.
    fn access(&mut self, access: &Access) -> Result<u32, NoMemory>
        requires { CanMake access.now self.old }
        ensures datum { IfOk result (λ datum. datum
            ≡ datum_by access.now (bus_of self.old.memory)) }
        ensures cells { OnOk result (HasCells (after_access access.now (cells_of self.old)) self.old
            self.new) }
    {
        if access.write {
            self.store(access)?;
            return Ok(access.value);
        }
        Ok(self.load(access))
    }

    /// Stores.
    #[tactic(auto, unfolding(m88_isa::specs::Bus::stored))]
    fn store(&mut self, access: &Access) -> Result<(), NoMemory>
        requires { CanMake access.now self.old }
        ensures { OnOk result (HasCells (record {
          regs = self.old.regs;
          bus = stored access.now (bus_of self.old.memory);
        }) self.old self.new) }
    {
        self.memory.prepare(access.addr)?;
        if self
            .memory
            .write_lanes(access.addr, access.en, access.value)
            .is_err()
        {
            unreachable!();
        }
        Ok(())
    }

    /// Loads, and answers what is loaded.
    fn load(&mut self, access: &Access) -> u32
        requires made { IsWordAccess access.now }
        requires read { access.now.write ≡ false }
        ensures datum { result ≡ datum_by access.now (bus_of self.old.memory) }
        ensures cells { HasCells (after_access access.now (cells_of self.old)) self.old self.new }
    {
        let datum = datum(access.en, access.signed, self.memory.word(access.addr));
        self.set(access.reg, datum);
        datum
    }

    /// Writes a register, if one is written at once.
    fn write(&mut self, written: Option<(Reg, u32)>)
        ensures regs { self.new ≡ record self.old { regs = with_written written self.old.regs } }
    {
        let Some((register, value)) = written else {
            return;
        };
        self.set(register, value);
    }

    /// Writes a register; nothing happens to r0.
    fn set(&mut self, register: Reg, value: u32)
        ensures { self.new ≡ record self.old { regs = with_register register value self.old.regs } }
    {
        if register != Reg::ZERO {
            self.regs[register.index()] = value;
        }
    }
}
