//! The accesses of a handler: to its own space, which has the ports and the table of the pages, and to the program's.
#![tactic(auto, unfolding(
// a handler as it is seen, an access, and a store
crate::specs::Handled::handling_of, crate::specs::Machine::after_own_access, crate::specs::Machine::after_user_access, m88_isa::specs::Bus::loaded, m88_isa::specs::Bus::stored))]

ghost use Rattle.std.specs.Prelude.{◌≡◌, ◌%◌, ◌^◌, ◌++◌, ◌∷◌, [], OnOk, if◌then◌else◌};
ghost use Rattle.m88_base.specs.Reg.{with_register};
ghost use Rattle.m88_isa.specs.Bus.{listed, stored};
ghost use Rattle.m88_isa.specs.Lanes.{is_touched};
ghost use Rattle.m88_isa.specs.Memory.{IsWordAccess};
ghost use Rattle.m88_mem.specs.DataBus.{absent_of, bus_of};
ghost use Rattle.m88_handler.specs.Handled.{handling_of};
ghost use Rattle.m88_handler.specs.Machine.{after_each, after_own_access, after_user_access, is_lacking, own_stored, own_word, presence};
ghost use Rattle.m88_handler.specs.Inside.Steps.{AreMakable, IsTouched};

use crate::handler::Handler;
use m88_base::{NoMemory, PAGE_BYTES, Reg};
use m88_isa::{Access, Accesses, datum};
use m88_mem::Memory;

/// The byte address of the word that puts its low byte out.
const CONSOLE_PORT: u32 = 0xFFF8;

/// The byte address of the word that stops the run.
const STOP_PORT: u32 = 0xFFFC;

/// The byte address of the table of the pages, a word for each.
const PAGE_TABLE: u32 = 0xFFC0_0000;

impl Handler {
    /// Makes accesses in the handler's space, in order.
    #[tactic(auto, unfolding(crate::specs::Machine::after_each))]
    pub(crate) fn touch_own(&mut self, accesses: &Accesses) -> Result<(), NoMemory>
        requires { AreMakable accesses.now }
        ensures state { OnOk result (handling_of self.new
            ≡ after_each after_own_access (listed accesses.now) (handling_of self.old)) }
        ensures images { OnOk result (IsTouched self.old self.new) }
    {
        match accesses.count {
            0 => Ok(()),
            1 => self.make_own(&accesses.first),
            _ => {
                self.make_own(&accesses.first)?;
                self.make_own(&accesses.second)
            }
        }
    }

    /// Makes accesses in the program's space, in order.
    #[tactic(auto, unfolding(crate::specs::Machine::after_each))]
    pub(crate) fn touch_user(&mut self, accesses: &Accesses) -> Result<(), NoMemory>
        requires { AreMakable accesses.now }
        ensures state { OnOk result (handling_of self.new
            ≡ after_each after_user_access (listed accesses.now) (handling_of self.old)) }
        ensures images { OnOk result (IsTouched self.old self.new) }
    {
        match accesses.count {
            0 => Ok(()),
            1 => self.make_user(&accesses.first),
            _ => {
                self.make_user(&accesses.first)?;
                self.make_user(&accesses.second)
            }
        }
    }

    /// Whether the page of one of some accesses is absent for the program.
    #[tactic(auto, unfolding(crate::specs::Machine::is_lacking))]
    pub(crate) fn lacks(&self, accesses: &Accesses) -> bool
        ensures { result ≡ is_lacking (absent_of self.now.user) (listed accesses.now) }
    {
        match accesses.count {
            0 => false,
            1 => self.user.is_absent(accesses.first.addr / PAGE_BYTES),
            _ => self.user.is_absent(accesses.first.addr / PAGE_BYTES)
                || self.user.is_absent(accesses.second.addr / PAGE_BYTES),
        }
    }

    /// Makes an access in the handler's space.
    fn make_own(&mut self, access: &Access) -> Result<(), NoMemory>
        requires { IsWordAccess access.now }
        ensures state { OnOk result
            (handling_of self.new ≡ after_own_access access.now (handling_of self.old)) }
        ensures images { OnOk result (IsTouched self.old self.new) }
    {
        if access.write {
            return self.store_own(access);
        }
        let word = self.own_word(access.addr);
        put(
            &mut self.regs,
            access.reg,
            datum(access.en, access.signed, word),
        );
        Ok(())
    }

    /// Makes an access in the program's space.
    fn make_user(&mut self, access: &Access) -> Result<(), NoMemory>
        requires { IsWordAccess access.now }
        ensures state { OnOk result
            (handling_of self.new ≡ after_user_access access.now (handling_of self.old)) }
        ensures images { OnOk result (IsTouched self.old self.new) }
    {
        if access.write {
            return store(&mut self.user, access);
        }
        let word = self.user.word(access.addr);
        put(
            &mut self.regs,
            access.reg,
            datum(access.en, access.signed, word),
        );
        Ok(())
    }

    /// The word at the byte address of a word of the handler's space.
    fn own_word(&self, addr: u32) -> u32
        requires { addr % 4 ≡ 0 }
        ensures { result ≡ own_word (handling_of self.now) addr }
    {
        if addr >= PAGE_TABLE {
            presence(self.user.is_absent((addr - PAGE_TABLE) / 4))
        } else if addr == CONSOLE_PORT || addr == STOP_PORT {
            0
        } else {
            self.own.word(addr)
        }
    }

    /// Makes a store in the handler's space.
    fn store_own(&mut self, access: &Access) -> Result<(), NoMemory>
        requires { IsWordAccess access.now }
        ensures state { OnOk result
            (handling_of self.new ≡ own_stored access.now (handling_of self.old)) }
        ensures images { OnOk result (IsTouched self.old self.new) }
    {
        if access.addr >= PAGE_TABLE {
            if access.en % 2 == 1 {
                self.user
                    .set_absent((access.addr - PAGE_TABLE) / 4, access.value % 2 == 0);
            }
            return Ok(());
        }
        match access.addr {
            CONSOLE_PORT => self.put_out(access),
            STOP_PORT => {
                self.stopped = true;
                Ok(())
            }
            _ => store(&mut self.own, access),
        }
    }

    /// Puts the low byte of a store to the console out, where the store touches it.
    fn put_out(&mut self, access: &Access) -> Result<(), NoMemory>
        ensures state { OnOk result (handling_of self.new
            ≡ (if is_touched access.now.en 3
            then record (handling_of self.old) { console = self.old.console.items ++ (access.now.value % 2 ^ 8 ∷ []) }
            else handling_of self.old)) }
        ensures images { OnOk result (IsTouched self.old self.new) }
    {
        if access.en % 2 == 1 {
            let byte = (access.value % (1 << 8)) as u8;
            self.console.push(byte).or(Err(NoMemory))?;
        }
        Ok(())
    }
}

/// A page as the table shows it.
pub(crate) fn presence(absent: bool) -> u32
    ensures { result ≡ presence absent }
{
    if absent { 0 } else { 1 }
}

/// Makes a store in a memory, whether the page is absent or not.
fn store(memory: &mut Memory, access: &Access) -> Result<(), NoMemory>
    requires { IsWordAccess access.now }
    ensures bus { OnOk result (bus_of memory.new ≡ stored access.now (bus_of memory.old)) }
    ensures absent { OnOk result (absent_of memory.new ≡ absent_of memory.old) }
    ensures image { OnOk result (memory.new.image ≡ memory.old.image) }
{
    memory.prepare(access.addr)?;
    memory.put_lanes(access.addr, access.en, access.value);
    Ok(())
}

/// Writes a register; nothing happens to r0.
pub(crate) fn put(regs: &mut [u32; 32], r: Reg, value: u32)
    ensures { regs.new ≡ with_register r value regs.old }
{
    if r != Reg::ZERO {
        regs[r.index()] = value;
    }
}
