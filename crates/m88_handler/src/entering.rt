//! A data fault that is taken by a handler: its entry, and how it went.
#![tactic(auto, unfolding(crate::specs::Handled::handling_of))]

ghost use Rattle.std.specs.Prelude.{◌≡◌, ◌≤◌, IfOk, None, slice_index};
ghost use Rattle.m88_base.specs.Triple.{no_triple};
ghost use Rattle.m88_isa.specs.ImageProgram.{IsProgramOf};
ghost use Rattle.m88_isa.specs.Machine.{Program};
ghost use Rattle.m88_isa.specs.Triples.{accesses_in};
ghost use Rattle.m88_mem.specs.DataBus.{image_bus};
ghost use Rattle.m88_serving.specs.Faults.{is_status, record_fault};
ghost use Rattle.m88_handler.specs.Entering.{entering, faulted, found, return_fault};
ghost use Rattle.m88_handler.specs.Handled.{base_of, code_of, handling_of, wanted_of};
ghost use Rattle.m88_handler.specs.Inside.Entered.{IsEntered, found_behind};
ghost use Rattle.m88_handler.specs.Judging.{IsEntry, remark_with, return_remark};

use crate::cause::{Cause, Course};
use crate::controls::{is_frozen, is_valid_slot, word_of};
use crate::handler::Handler;
use crate::judging::first_difference;
use crate::memory::put;
use crate::remark::Remark;
use crate::serving::{Wanted, service_of};
use m88_base::{Absent, Image, NoMemory, Triple};
use m88_ctrl::{Control, cr};
use m88_event::Record;
use m88_isa::{DATA_ACCESS, access_in, is_valid_triple};
use m88_mem::Memory;
use m88_serving::{control_left, is_status};
use std::alloc::Global;

/// How an entry of a handler went, and what it left.
#[derive(Drop)]
pub struct Entry {
    /// The registers as the handler found them: one that waited is 0.
    pub found: [u32; 32],
    pub remark: Remark,
    pub left: Handler,
}

/// The byte address at which the handler of data faults begins: VBR is 0.
const ENTRY: u32 = 8 * DATA_ACCESS as u32;

/// Enters a handler, whose code is an image, by a data fault with a record and these registers, r0 to r31, over an
/// image of the words of data memory, where every page is absent. It carries out up to so many of the handler's
/// instructions, and judges what it left.
pub fn enter(
    alloc: Global,
    code: &Image,
    fault: &Record,
    given: &[u32; 32],
    words: &Image,
    most: u32,
) -> Result<Entry, NoMemory>
    requires fault { record_fault fault.now ≡ None }
    requires zero { slice_index given.now 0 ≡ 0 }
    requires most { most ≤ 10000000 }
    ensures entry { IfOk result (λ entry. (p : Program) → IsProgramOf code.now p
        → IsEntry p most (faulted fault.now given.now (image_bus words.now)) entry) }
    ensures image { IfOk result (λ entry. base_of entry.left ≡ words.now) }
{
    let mut left = entered(alloc, code, fault, given, words)?;
    let found = left.regs;
    let course = left.run(most)?;
    let wanted = service_of(alloc, fault, given, words)?;
    let remark = remark_on(course, &left, &wanted);
    Ok(Entry {
        found,
        remark,
        left,
    })
}

/// A handler as it is entered.
fn entered(
    alloc: Global,
    code: &Image,
    fault: &Record,
    given: &[u32; 32],
    words: &Image,
) -> Result<Handler, NoMemory>
    requires fault { record_fault fault.now ≡ None }
    ensures state { IfOk result (λ h. (p : Program) → IsProgramOf code.now p
        → handling_of h ≡ entering p (faulted fault.now given.now (image_bus words.now))) }
    ensures entered { IfOk result (IsEntered code.now words.now) }
{
    let own = Memory::new(alloc, code, &Absent::None)?;
    let user = Memory::new(alloc, words, &Absent::All)?;
    Ok(Handler {
        regs: found(&fault.triples, given),
        pc: ENTRY,
        next: ENTRY + 4,
        control: control_left(fault),
        own,
        console: Vec::new(alloc),
        stopped: false,
        steps: 0,
        user,
    })
}

/// The registers as a handler finds them: one that waits reads as 0.
fn found(triples: &[Triple; 3], given: &[u32; 32]) -> [u32; 32]
    ensures { result ≡ found (accesses_in triples.now) given.now }
{
    let [t0, t1, t2] = triples;
    let mut regs = *given;
    forget(&mut regs, t0);
    forget(&mut regs, t1);
    forget(&mut regs, t2);
    regs
}

/// Puts 0 into the register that waits for a transaction, if it is a valid load.
#[tactic(auto, unfolding(crate::specs::Inside::Entered::found_behind))]
fn forget(regs: &mut [u32; 32], triple: &Triple)
    ensures { regs.new ≡ found_behind triple.now regs.old }
{
    if !is_valid_triple(triple) {
        return;
    }
    let access = access_in(triple);
    if !access.write {
        put(regs, access.reg, 0);
    }
}

/// How an entry went.
fn remark_on(course: Course, left: &Handler, wanted: &Wanted) -> Remark
    requires { left.now.user.image ≡ wanted.now.memory.image }
    ensures { result ≡ remark_with course (handling_of left.now) (wanted_of wanted.now) }
{
    match course {
        Course::Returns => remark_on_return(left, wanted),
        Course::Stops => Remark::Stops,
        Course::Fails(cause) => Remark::Fails(cause, left.pc),
        Course::GoesOn => Remark::Fails(Cause::Steps, left.pc),
    }
}

/// How a return went.
fn remark_on_return(left: &Handler, wanted: &Wanted) -> Remark
    requires { left.now.user.image ≡ wanted.now.memory.image }
    ensures { result ≡ return_remark (return_fault left.now.control) (handling_of left.now)
        (wanted_of wanted.now) }
{
    if let Some(cause) = return_fault(&left.control) {
        return Remark::Fails(cause, left.pc);
    }
    match first_difference(left, wanted) {
        Some(difference) => Remark::Differs(difference),
        None => Remark::Kept,
    }
}

/// Why a return can't be made, if it can't.
fn return_fault(control: &Control) -> Option<Cause>
    ensures { result ≡ return_fault control.now }
{
    if !is_frozen(control) {
        Some(Cause::Sfrz)
    } else if !is_status(word_of(control, cr::EPSR)) {
        Some(Cause::Epsr)
    } else if word_of(control, cr::SSBR) != 0 {
        Some(Cause::Ssbr)
    } else if !is_valid_slot(word_of(control, cr::SFIP)) {
        Some(Cause::Sfip)
    } else {
        None
    }
}
