//! One instruction that software does.

ghost use Rattle.std.specs.Prelude.{ℕ, ◌≡◌, Some, None, true, map, IfOk, IfSome, OnErr, OnOk};
ghost use Rattle.m88_base.specs.Reg.{with_register};
ghost use Rattle.m88_isa.specs.Bus.{bus_after_all};
ghost use Rattle.m88_isa.specs.Memory.{access_of};
ghost use Rattle.m88_isa.specs.Word.{IsWord};
ghost use Rattle.m88_isa.specs.declared.instr.Instr.{Instr as InstrValue};
ghost use Rattle.m88_mem.specs.DataBus.{GainsReady, absent_of, bus_of, ready_of};
ghost use Rattle.m88_emul.specs.Aid.{Aid, aid_of, with_all};
ghost use Rattle.m88_emul.specs.Extended.{byte_seen};
ghost use Rattle.m88_emul.specs.Emulating.{IsAided};
ghost use Rattle.m88_emul.specs.Inside.Places.{AreOpen, AreSupplied, HasWords};
ghost use Rattle.m88_emul.specs.Inside.Tasks.{aid_by, stored_places, task_places};
ghost use Rattle.m88_emul.specs.Timeline.{has_place_in};
ghost use Rattle.m88_emul.specs.declared.emulator.Emulated.{Emulated as EmulatedValue};

use crate::bytes::{half, put_double, put_half, put_word, word as word_at};
use crate::places;
use crate::task::{Task, task_of};
use m88_base::{NoMemory, Reg};
use m88_codec::decode;
use m88_isa::register_after;
use m88_mem::Memory;
use std::alloc::Global;

/// Whether software did an instruction.
#[derive(Clone, Copy, PartialEq, Eq, Debug)]
pub enum Emulated {
    /// It did: registers and memory are those behind the instruction.
    Done,
    /// Nothing changed: the word is no instruction, doesn't raise that vector, or is left to end the program.
    Not,
}

/// Does the instruction of a word that raised a vector, with MXM clear. r0 reads as 0 and stays as it is. Memory takes
/// its frames from the allocator that it was made with, so that `alloc` is left as it is. Where memory runs out, only
/// pages may have been made ready.
pub fn emulate(
    alloc: Global,
    vector: u16,
    word: u32,
    regs: &mut [u32; 32],
    memory: &mut Memory,
) -> Result<Emulated, NoMemory>
    ensures done { IfOk result (λ e. e ≡ EmulatedValue.Done
        → (i : InstrValue) × IsWord i word × ((aid : Aid)
        × (aid_of i vector regs.old (byte_seen (bus_of memory.old)) ≡ Some aid)
        × IsAided aid regs.old regs.new memory.old memory.new)) }
    ensures none { IfOk result (λ e. e ≡ EmulatedValue.Not → (i : InstrValue) → IsWord i word
        → aid_of i vector regs.old (byte_seen (bus_of memory.old)) ≡ None) }
    ensures unchanged { IfOk result (λ e. e ≡ EmulatedValue.Not
        → (regs.new ≡ regs.old) × (memory.new ≡ memory.old)) }
    ensures err { OnErr result ((regs.new ≡ regs.old) × GainsReady memory.old memory.new) }
{
    let _ = alloc;
    let Some(task) = task_in(vector, word, regs) else {
        return Ok(Emulated::Not);
    };
    emulate_task(&task, regs, memory)?;
    Ok(Emulated::Done)
}

/// Does a task. Where memory runs out, only pages may have been made ready.
pub(crate) fn emulate_task(
    task: &Task,
    regs: &mut [u32; 32],
    memory: &mut Memory,
) -> Result<(), NoMemory>
    ensures done { OnOk result (IsAided (aid_by task.now (byte_seen (bus_of memory.old))) regs.old
        regs.new memory.old memory.new) }
    ensures err { OnErr result ((regs.new ≡ regs.old) × GainsReady memory.old memory.new) }
{
    prepare(task, memory)?;
    supply(task, memory);
    carry_out(task, regs, memory);
    Ok(())
}

/// What software is to do for the instruction of a word, if it does anything, whatever memory has.
pub(crate) fn task_in(vector: u16, word: u32, regs: &[u32; 32]) -> Option<Task>
    ensures some { IfSome result (λ task. (i : InstrValue) × IsWord i word
        × ((bytes : ℕ → ℕ) → aid_of i vector regs.now bytes ≡ Some (aid_by task bytes))) }
    ensures none { result ≡ None → (i : InstrValue) → IsWord i word
        → (bytes : ℕ → ℕ) → aid_of i vector regs.now bytes ≡ None }
{
    match decode(word) {
        Ok(instr) => task_of(&instr, vector, regs),
        Err(_) => None,
    }
}

/// Makes the pages ready to which a task stores.
#[tactic(auto, unfolding(crate::specs::Timeline::has_place_in))]
fn prepare(task: &Task, memory: &mut Memory) -> Result<(), NoMemory>
    ensures only { GainsReady memory.old memory.new }
    ensures ready { OnOk result ((page : ℕ) → has_place_in (stored_places task.now) page ≡ true
        → ready_of memory.new page ≡ true) }
{
    match *task {
        Task::StoreHalf { place, .. } => places::prepare(memory, place, 2),
        Task::StoreWord { place, .. } => places::prepare(memory, place, 4),
        Task::StoreDouble { place, .. } => places::prepare(memory, place, 8),
        Task::Divide { .. }
        | Task::LoadHalf { .. }
        | Task::LoadWord { .. }
        | Task::LoadDouble { .. } => Ok(()),
    }
}

/// Supplies the pages whose bytes a task loads or stores.
#[tactic(auto, unfolding(crate::specs::Timeline::has_place_in))]
fn supply(task: &Task, memory: &mut Memory)
    ensures { AreSupplied (task_places task.now) memory.old memory.new }
{
    match *task {
        Task::Divide { .. } => {}
        Task::LoadHalf { place, .. } | Task::StoreHalf { place, .. } => {
            places::supply(memory, place, 2)
        }
        Task::LoadWord { place, .. } | Task::StoreWord { place, .. } => {
            places::supply(memory, place, 4)
        }
        Task::LoadDouble { place, .. } | Task::StoreDouble { place, .. } => {
            places::supply(memory, place, 8)
        }
    }
}

/// Carries a task out. The pages to which it stores are ready and present.
#[tactic(auto, unfolding(crate::specs::Aid::with_all, m88_isa::specs::Bus::bus_after_all))]
fn carry_out(task: &Task, regs: &mut [u32; 32], memory: &mut Memory)
    requires { AreOpen (ready_of memory.old) (absent_of memory.old) (stored_places task.now) }
    ensures regs { regs.new
        ≡ with_all (aid_by task.now (byte_seen (bus_of memory.old))).writes regs.old }
    ensures words { HasWords (bus_after_all
        (map access_of (aid_by task.now (byte_seen (bus_of memory.old))).stores)
        (bus_of memory.old)) memory.old memory.new }
{
    match *task {
        Task::Divide { d, quotient } => set(regs, d, quotient),
        Task::LoadHalf { d, place, signed } => set(regs, d, half(memory, place, signed)),
        Task::LoadWord { d, place } => set(regs, d, word_at(memory, place)),
        Task::LoadDouble { d, place } => {
            set(regs, d, word_at(memory, place));
            set(
                regs,
                register_after(d),
                word_at(memory, place.wrapping_add(4)),
            );
        }
        Task::StoreHalf { value, place } => put_half(memory, place, value),
        Task::StoreWord { value, place } => put_word(memory, place, value),
        Task::StoreDouble {
            value,
            second,
            place,
        } => put_double(memory, place, value, second),
    }
}

/// Writes a register; what is written to r0 is lost.
fn set(regs: &mut [u32; 32], r: Reg, value: u32)
    ensures { regs.new ≡ with_register r value regs.old }
{
    if r != Reg::ZERO {
        regs[r.index()] = value;
    }
}
