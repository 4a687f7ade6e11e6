//! How the monitor finishes the data transactions that a fault left.
#![tactic(auto, unfolding(m88_isa::specs::Bus::loaded, m88_isa::specs::Bus::stored))]

ghost use Rattle.std.specs.Prelude.{◌≡◌, ◌<◌, ◌≤◌, false, if◌then◌else◌, is_some, slice_set};
ghost use Rattle.m88_base.specs.Pages.{page_number};
ghost use Rattle.m88_base.specs.Reg.{number_of};
ghost use Rattle.m88_ctrl.specs.ControlRegisters.{by_number, kept_of};
ghost use Rattle.m88_mem.specs.DataBus.{absent_of, bus_of, ready_of};
ghost use Rattle.m88_scoreboard.specs.Registers.{none_waits, waiting_of};
ghost use Rattle.m88_monitor.specs.Inside.Making.{IsMade};
ghost use Rattle.m88_monitor.specs.Serving.{CanServe, CanServeAll, CanServeTriple, KeepsRest, after_service, after_triple, datum_put, served_access, serving_of, triple_at, valid_count, with_finished, without_bit};

use m88_base::{Reg, Triple};
use m88_ctrl::{Control, cr};
use m88_isa::{Access, access_in, datum, finished, is_valid_triple};
use m88_mem::{Memory, PAGE_BYTES};
use m88_scoreboard::RegFile;

/// How many transactions the monitor finished.
#[derive(Clone, Copy, PartialEq, Eq, Debug)]
pub struct Served {
    /// How many triples were valid, at most three.
    pub done: u8,
}

/// The access of a transaction that the monitor finished.
#[derive(Clone, Copy, PartialEq, Eq, Debug)]
pub struct ServedAccess {
    /// The access, as the words of its triple tell it.
    pub access: Access,
    /// The word that a load put into its register, 0 of a store.
    pub datum: u32,
}

/// Finishes the transactions whose triples are valid, the oldest first: their pages are supplied, stores and
/// loads are made, the bits of the loaded registers in SSBR are cleared, and VALID of each triple is cleared.
/// Nothing else changes.
pub fn serve(ctrl: &mut Control, regs: &mut RegFile, memory: &mut Memory) -> Served
    requires waiting { waiting_of regs.old ≡ none_waits }
    requires triples { CanServeAll (ready_of memory.old) ctrl.old }
    ensures served { serving_of ctrl.new regs.new memory.new
        ≡ after_service (serving_of ctrl.old regs.old memory.old) }
    ensures done { result.done ≡ valid_count ctrl.old }
    ensures keeps { KeepsRest regs.old memory.old regs.new memory.new }
{
    let first = serve_triple(ctrl, regs, memory, 0);
    let second = serve_triple(ctrl, regs, memory, 1);
    let third = serve_triple(ctrl, regs, memory, 2);
    Served {
        done: count(&first) + count(&second) + count(&third),
    }
}

/// How many transactions were finished of one triple: one, or none where it isn't valid.
fn count(served: &Option<ServedAccess>) -> u8
    ensures { result ≡ (if is_some served.now then 1 else 0) }
{
    match served {
        Some(_) => 1,
        None => 0,
    }
}

/// Finishes the transaction of the triple at a place, 0 the oldest, if it is valid: its page is supplied, its store or
/// its load is made, the bit of a loaded register in SSBR is cleared, and VALID of the triple is cleared. Nothing else
/// changes. The answer is its access, with what a load put into its register; None where the triple isn't valid.
pub fn serve_triple(
    ctrl: &mut Control,
    regs: &mut RegFile,
    memory: &mut Memory,
    index: usize,
) -> Option<ServedAccess>
    requires index { index < 3 }
    requires waiting { waiting_of regs.old ≡ none_waits }
    requires triple { CanServeTriple (ready_of memory.old) (triple_at index ctrl.old) }
    ensures served { serving_of ctrl.new regs.new memory.new
        ≡ after_triple index (serving_of ctrl.old regs.old memory.old) }
    ensures access { result ≡ served_access (triple_at index ctrl.old) (bus_of memory.old) }
    ensures keeps { KeepsRest regs.old memory.old regs.new memory.new }
{
    let triple = triple_at(ctrl, index);
    if !is_valid_triple(&triple) {
        return None;
    }
    let access = access_in(&triple);
    memory.supply(access.addr / PAGE_BYTES);
    let datum = make(ctrl, regs, memory, &access);
    finish(ctrl, index, &triple);
    Some(ServedAccess { access, datum })
}

/// The triple at a place, 0 the oldest.
fn triple_at(ctrl: &Control, index: usize) -> Triple
    requires { index < 3 }
    ensures { result ≡ triple_at index ctrl.now }
{
    ctrl.triple(index)
}

/// Makes an access whose page is present: a store, or a load into its register, whose bit in SSBR is cleared. The
/// answer is what a load puts there, 0 of a store.
fn make(ctrl: &mut Control, regs: &mut RegFile, memory: &mut Memory, access: &Access) -> u32
    requires serve { CanServe (ready_of memory.old) access.now }
    requires present { absent_of memory.old (page_number access.now.addr) ≡ false }
    requires waiting { waiting_of regs.old ≡ none_waits }
    ensures made { IsMade access.now ctrl.old regs.old memory.old ctrl.new regs.new memory.new }
    ensures datum { result ≡ datum_put access.now (bus_of memory.old) }
{
    if access.write {
        if memory
            .write_lanes(access.addr, access.en, access.value)
            .is_err()
        {
            unreachable!();
        }
        return 0;
    }
    let word = memory.word(access.addr);
    let loaded = datum(access.en, access.signed, word);
    regs.set(access.reg, loaded);
    end_wait(ctrl, access.reg);
    loaded
}

/// Clears the bit of a register in SSBR.
fn end_wait(ctrl: &mut Control, r: Reg)
    ensures { ctrl.new
        ≡ record ctrl.old { ssbr = without_bit (number_of r) ctrl.old.ssbr } }
{
    let Some(waiting) = ctrl.ldcr(cr::SSBR) else {
        unreachable!();
    };
    put(
        ctrl,
        cr::SSBR,
        waiting - waiting / (1 << r.number()) % 2 * (1 << r.number()),
    );
}

/// Clears VALID of the triple at a place, which has these words.
fn finish(ctrl: &mut Control, index: usize, triple: &Triple)
    requires index { index < 3 }
    requires words { triple_at index ctrl.old ≡ triple.now }
    ensures { ctrl.new ≡ with_finished index ctrl.old }
{
    let dmt = finished(triple).dmt;
    match index {
        0 => put(ctrl, cr::DMT0, dmt),
        1 => put(ctrl, cr::DMT1, dmt),
        _ => put(ctrl, cr::DMT2, dmt),
    }
}

/// Stores a word into a control register that can be written.
fn put(ctrl: &mut Control, n: u8, value: u32)
    requires written { 0 < n }
    requires there { n ≤ 20 }
    ensures { by_number ctrl.new ≡ slice_set (by_number ctrl.old) n (kept_of n value) }
{
    if !ctrl.stcr(n, value) {
        unreachable!();
    }
}
