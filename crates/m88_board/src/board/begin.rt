//! A board taken into its parts, and one that goes on from parts.

ghost use Rattle.std.specs.Prelude.{ℕ, Bool, [], ◌≡◌, ◌<◌, None, not, true, false, is_some, slice_index, IfSome};
ghost use Rattle.m88_base.specs.Slot.{IsWordSlot, slot_word, squashed_slot, valid_slot};
ghost use Rattle.m88_base.specs.declared.absent.Absent.{Absent as AbsentValue};
ghost use Rattle.m88_ctrl.specs.ControlRegisters.{mxm_of};
ghost use Rattle.m88_iunit.specs.Pointers.{word_behind};
ghost use Rattle.m88_mem.specs.DataBus.{bus_of};
ghost use Rattle.m88_scoreboard.specs.Registers.{shown_at};
ghost use Rattle.m88_board.specs.Board.{completed_of, local_of};
ghost use Rattle.m88_board.specs.Handed.{IsMidway};
ghost use Rattle.m88_board.specs.Kept.{IsKept, lacks_word};
ghost use Rattle.m88_board.specs.Parts.{IsAtWord, MayBegin, MayPass, begun_control, control_at, last_of, parts_of, parts_with, seen_at, seen_of_parts, xip_of};
ghost use Rattle.m88_board.specs.Inside.Going.{slots_from};

use super::Board;
use crate::parts::Parts;
use crate::slots::{lacks_word, next_two};
use m88_base::Slot;
use m88_ctrl::Control;
use m88_dunit::DataUnit;
use m88_iunit::InstrUnit;
use m88_mem::Memory;
use m88_scoreboard::RegFile;

impl Board {
    /// The parts of a board whose program has ended, so that nothing is pending and the next instruction isn't passed
    /// over. It takes no memory.
    pub fn into_parts(self) -> Parts
        requires { is_some self.ended ≡ true }
        ensures parts { result ≡ parts_of self }
        ensures begins { MayBegin result self.limit }
        ensures early { result.retired < self.limit }
        ensures seen { mxm_of self.control ≡ false
            → seen_of_parts result ≡ record (local_of self) { ended = None } }
        ensures mode { seen_at (mxm_of self.control) false result
            ≡ record (local_of self) { ended = None } }
    {
        self.take_apart()
    }

    /// The parts of a board that stands between two instructions: its program hasn't ended, nothing is pending, and the
    /// next instruction isn't passed over. It takes no memory.
    pub fn into_parts_midway(self) -> Parts
        requires { IsMidway self }
        ensures parts { result ≡ parts_of self }
        ensures begins { MayBegin result self.limit }
        ensures seen { seen_at (mxm_of self.control) false result ≡ local_of self }
    {
        self.take_apart()
    }

    /// The parts of a board as it stands, in which a register that waits is 0.
    pub(super) fn take_apart(self) -> Parts
        ensures parts { result ≡ parts_with result.regs self }
        ensures found { (r : ℕ) → r < 32 → slice_index result.regs r ≡ shown_at self.file r }
        ensures whole { self.pending ≡ [] → result ≡ parts_of self }
        ensures begins { MayBegin result self.limit }
        ensures passes { self.slots.nip.v ≡ false → MayPass result }
        ensures seen { seen_at (mxm_of self.control) (not self.slots.nip.v) result
            ≡ record (local_of self) {
              completed = record (completed_of self) {
                regs = result.regs;
                bus = bus_of self.memory;
              };
              pending = [];
              ended = None;
            } }
        ensures kept { IsKept self }
    {
        let (sxip, _, _) = self.iunit.shadow();
        let xip = self.iunit.xip();
        let (pc, next) = next_two(&self.iunit);
        let regs = self.regs.values();
        let book = self.book;
        Parts {
            memory: self.memory,
            regs,
            carry: self.ctrl.carry(),
            pc,
            next,
            last: last_of(sxip, xip),
            retired: book.retired,
            done: book.done,
            events: book.events,
            answers: book.answers,
            out: book.out,
            records: book.records,
        }
    }

    /// A board that begins from parts, in the middle of a program: nothing is pending, no mark is set, and MXM of its
    /// PSR is clear. It retires at most `limit` instructions, those counted that the parts have. It makes no choice of
    /// absent pages of its own: memory comes with those that are absent. It takes no memory.
    pub fn begin(parts: Parts, limit: u32) -> Board
        requires { MayBegin parts limit }
        ensures seen { local_of result ≡ seen_of_parts parts }
        ensures limit { result.limit ≡ limit }
        ensures named { result.named ≡ AbsentValue.None }
        ensures memory { result.memory ≡ parts.memory }
        ensures control { result.control ≡ begun_control parts.carry }
        ensures events { result.events ≡ parts.events }
        ensures begun { result.begun ≡ true }
    {
        Board::resume(parts, limit, false, false)
    }

    /// A board that goes on from parts, as `begin` has it, where MXM of its PSR is `mxm`. With `bubble` the word behind
    /// the instruction that was retired last is passed over before the next one. It takes no memory.
    pub fn resume(parts: Parts, limit: u32, mxm: bool, bubble: bool) -> Board
        requires begins { MayBegin parts limit }
        requires passes { bubble ≡ true → MayPass parts }
        ensures seen { local_of result ≡ seen_at mxm bubble parts }
        ensures limit { result.limit ≡ limit }
        ensures named { result.named ≡ AbsentValue.None }
        ensures memory { result.memory ≡ parts.memory }
        ensures control { result.control ≡ control_at mxm parts.carry }
        ensures events { result.events ≡ parts.events }
        ensures begun { result.begun ≡ true }
    {
        // What always holds of an image is told with its parts.
        let image = parts.memory.image();
        prove!(image.part_count() <= image.len());
        let mut ctrl = Control::new(mxm);
        ctrl.set_carry(parts.carry);
        let iunit = pointers_of(&parts, bubble);
        let regs = RegFile::of(parts.regs);
        let (memory, book) = parts.into_book(limit, None);
        Board {
            iunit,
            dunit: DataUnit::new(),
            regs,
            memory,
            ctrl,
            book,
            begun: true,
        }
    }
}

/// The address of the instruction that was retired last, of the word of XIP and XIP.
fn last_of(sxip: u32, xip: Slot) -> Option<u32>
    requires { sxip ≡ slot_word xip }
    ensures { result ≡ last_of xip }
{
    if sxip == 0 { None } else { Some(xip.addr) }
}

/// The instruction pointers of a board that goes on from parts.
fn pointers_of(parts: &Parts, bubble: bool) -> InstrUnit
    requires pc { IsAtWord parts.now.pc }
    requires next { IsAtWord parts.now.next }
    requires last { IfSome parts.now.last IsAtWord }
    ensures { result ≡ slots_from parts.now bubble }
{
    let xip = pointer_of(parts.last);
    let first = fetched(&parts.memory, parts.pc);
    if bubble {
        return InstrUnit::at(xip, passed(xip.addr.wrapping_add(4)), first);
    }
    let second = fetched(&parts.memory, parts.next);
    InstrUnit::at(xip, first, second)
}

/// XIP of the instruction that was retired last.
fn pointer_of(last: Option<u32>) -> Slot
    requires { IfSome last IsAtWord }
    ensures value { result ≡ xip_of last }
    ensures word { IsWordSlot result }
{
    match last {
        Some(addr) => Slot {
            addr,
            v: true,
            e: false,
        },
        None => Slot {
            addr: 0,
            v: false,
            e: false,
        },
    }
}

/// The instruction at the byte address of a word, which is to be issued.
fn fetched(memory: &Memory, addr: u32) -> Slot
    requires { IsAtWord addr }
    ensures { result ≡ valid_slot addr (lacks_word memory.now.image addr) }
{
    Slot {
        addr,
        v: true,
        e: lacks_word(memory, addr),
    }
}

/// An instruction that is passed over.
fn passed(addr: u32) -> Slot
    ensures { result ≡ squashed_slot addr }
{
    Slot {
        addr,
        v: false,
        e: false,
    }
}
