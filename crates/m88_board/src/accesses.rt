//! Data accesses: their pages made ready, issued to the data unit, and answered.

ghost use Rattle.std.specs.Prelude.{◌≡◌, ◌+◌, ◌≤◌, ◌++◌, List, [], ◌∷◌, Some, false, length, slice_get, IfSome, OnErr, OnOk};
ghost use Rattle.m88_base.specs.Pages.{page_number};
ghost use Rattle.m88_base.specs.Reg.{number_of, with_register};
ghost use Rattle.m88_base.specs.RegisterSet.{with_member};
ghost use Rattle.m88_isa.specs.Bus.{listed, loaded, waits_for};
ghost use Rattle.m88_isa.specs.Held.{most_pending};
ghost use Rattle.m88_isa.specs.Machine.{with_written};
ghost use Rattle.m88_isa.specs.Memory.{IsWordAccess};
ghost use Rattle.m88_isa.specs.declared.planned.Access.{Access as AccessValue};
ghost use Rattle.m88_dunit.specs.Pending.{CanIssue};
ghost use Rattle.m88_mem.specs.DataBus.{GainsReady, absent_of, bus_of, ready_of};
ghost use Rattle.m88_scoreboard.specs.Registers.{waiting_of};
ghost use Rattle.m88_board.specs.Kept.{AreReady, HasReadyPage, PartsAgree};
ghost use Rattle.m88_board.specs.Inside.Accesses.{AnswersOldest, PutsIn};
ghost use Rattle.m88_board.specs.Inside.Turns.{StoreOnOnePage};

use m88_base::{NoMemory, Reg};
use m88_dunit::DataUnit;
use m88_isa::{Access, Accesses, datum};
use m88_mem::Memory;
use m88_scoreboard::RegFile;

/// Makes the page of an access ready, if it is a store.
pub(crate) fn prepare_one(memory: &mut Memory, access: &Access) -> Result<(), NoMemory>
    ensures only { GainsReady memory.old memory.new }
    ensures ready { OnOk result (HasReadyPage (ready_of memory.new) access.now) }
    ensures err { OnErr result (memory.new ≡ memory.old) }
{
    if !access.write {
        return Ok(());
    }
    memory.prepare(access.addr)
}

/// Makes the page of the stores among some accesses ready, before any of them is issued. Where memory is refused, all
/// is as before.
pub(crate) fn prepare(memory: &mut Memory, accesses: &Accesses) -> Result<(), NoMemory>
    requires { StoreOnOnePage accesses.now }
    ensures only { GainsReady memory.old memory.new }
    ensures ready { OnOk result (AreReady (ready_of memory.new) (listed accesses.now)) }
    ensures err { OnErr result (memory.new ≡ memory.old) }
{
    if accesses.count == 0 {
        return Ok(());
    }
    if accesses.count == 1 {
        return prepare_one(memory, &accesses.first);
    }
    // Two stores are to one page.
    prepare_one(memory, &accesses.second)
}

/// The register of a load waits for it.
pub(crate) fn wait_for(regs: &mut RegFile, access: &Access)
    ensures numbers { regs.new.numbers ≡ regs.old.numbers }
    ensures waiting { (pending : List AccessValue) → waiting_of regs.old ≡ waits_for pending
        → waiting_of regs.new ≡ waits_for (pending ++ access.now ∷ []) }
{
    if access.write {
        return;
    }
    regs.mark(access.reg);
}

/// Puts accesses behind the pending ones.
pub(crate) fn put_in(unit: &mut DataUnit, regs: &mut RegFile, accesses: &Accesses)
    requires can { CanIssue accesses.now }
    requires room { length unit.old + accesses.now.count ≤ most_pending }
    requires waiting { waiting_of regs.old ≡ waits_for unit.old }
    ensures { PutsIn accesses.now unit.old regs.old unit.new regs.new }
{
    if unit.issue(accesses).is_err() {
        unreachable!();
    }
    if accesses.count == 0 {
        return;
    }
    wait_for(regs, &accesses.first);
    if accesses.count == 1 {
        return;
    }
    wait_for(regs, &accesses.second);
}

/// Answers a load whose page is present: its register has its value, and waits no more.
#[tactic(auto, unfolding(m88_isa::specs::Bus::loaded))]
pub(crate) fn answer_load(access: &Access, memory: &mut Memory, regs: &mut RegFile)
    requires made { IsWordAccess access.now }
    requires present { absent_of memory.old (page_number access.now.addr) ≡ false }
    requires zero { waiting_of regs.old 0 ≡ false }
    ensures numbers { regs.new.numbers
        ≡ with_register access.now.reg (loaded access.now (bus_of memory.old)) regs.old.numbers }
    ensures waiting { waiting_of regs.new
        ≡ with_member (number_of access.now.reg) false (waiting_of regs.old) }
    ensures stays { memory.new ≡ memory.old }
{
    let word = memory.load(access.addr);
    regs.clear(access.reg);
    regs.set(access.reg, datum(access.en, access.signed, word));
}

/// Answers the oldest transaction, whose page is present.
pub(crate) fn complete(
    oldest: &Access,
    unit: &mut DataUnit,
    memory: &mut Memory,
    regs: &mut RegFile,
)
    requires oldest { slice_get unit.old 0 ≡ Some oldest.now }
    requires present { absent_of memory.old (page_number oldest.now.addr) ≡ false }
    requires agree { PartsAgree unit.old regs.old memory.old }
    ensures { AnswersOldest unit.old regs.old memory.old unit.new regs.new memory.new }
{
    if oldest.write {
        memory.put_lanes(oldest.addr, oldest.en, oldest.value);
        unit.retire();
        return;
    }
    answer_load(oldest, memory, regs);
    unit.retire();
}

/// Writes the register that an instruction writes at once, which doesn't wait.
pub(crate) fn write(regs: &mut RegFile, written: Option<(Reg, u32)>)
    requires { IfSome written (λ w. waiting_of regs.old (number_of w.0) ≡ false) }
    ensures numbers { regs.new.numbers ≡ with_written written regs.old.numbers }
    ensures waiting { waiting_of regs.new ≡ waiting_of regs.old }
{
    let Some((r, value)) = written else { return };
    regs.set(r, value);
}
