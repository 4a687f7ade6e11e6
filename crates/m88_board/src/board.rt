//! The board: its parts, and what a choice makes of them.

ghost use Rattle.std.specs.Prelude.{ℕ, Ok, List, option_map, ◌≡◌, ◌<◌, ◌≤◌, ◌+◌, ◌-◌, ◌*◌, [], Option, Some, None, false, is_some, slice_get, IfOk, OnErr, OnOk};
ghost use Rattle.m88_base.specs.Image.{IsImage};
ghost use Rattle.m88_base.specs.Pages.{page_number};
ghost use Rattle.m88_base.specs.Reg.{number_of};
ghost use Rattle.m88_base.specs.Slot.{slot_word};
ghost use Rattle.m88_ctrl.specs.ControlRegisters.{at_start};
ghost use Rattle.m88_event.specs.Choice.{answer_choice, evicts, faults, finishes, serves, turn_choice};
ghost use Rattle.m88_event.specs.Local.{record_by};
ghost use Rattle.m88_event.specs.Timeline.{Moment, Run, opening_moment, record_at, run_with};
ghost use Rattle.m88_board.specs.declared.brief.Brief.{Brief as BriefValue};
ghost use Rattle.m88_event.specs.declared.letter.Letter.{Letter as LetterValue};
ghost use Rattle.m88_mem.specs.DataBus.{absent_of};
ghost use Rattle.m88_mem.specs.Lines.{HasInvolved};
ghost use Rattle.m88_mem.specs.Marks.{NamesPages, absent_in};
ghost use Rattle.m88_isa.specs.Held.{busy_register};
ghost use Rattle.m88_isa.specs.Machine.{Program, by_vector, trapped};
ghost use Rattle.m88_board.specs.Board.{event_counted, is_idle_board, local_of, pc_of};
ghost use Rattle.m88_isa.specs.ImageProgram.{IsProgramOf};
ghost use Rattle.std.specs.Int.{bit_at};
ghost use Rattle.m88_iunit.specs.Pointers.{resumed};
ghost use Rattle.m88_board.specs.Kept.{IsKept, epsr_of, most_events, most_retired};
ghost use Rattle.m88_board.specs.Moves.{IsAt};
ghost use Rattle.m88_board.specs.Shown.{IsRecordOf};
ghost use Rattle.m88_board.specs.Inside.Events.{Brings, BringsOrStays, EvictsAll};
ghost use Rattle.m88_board.specs.Inside.Turns.{ComesToEnd, IsDue, IsFetched, IssueComesTo, stopping};

use crate::accesses::complete;
use crate::book::Book;
use crate::brief::Brief;
use crate::serving::{enter, serve_all, visit};
use crate::slots::{advance, lacks_behind, lacks_word};
use m88_base::{Absent, Image, NoMemory, Reg};
use m88_ctrl::{Control, cr};
use m88_dunit::DataUnit;
use m88_event::{End, Record, Why};
use m88_isa::Access;
use m88_iunit::InstrUnit;
use m88_mem::{Line, Memory, PAGE_BYTES};
use m88_monitor::{Service, service};
use m88_scoreboard::RegFile;
use std::alloc::Global;
use std::marker::Model;

mod begin;
mod event;
mod handing;
mod interrupt;
mod issue;
mod reading;
mod run;

/// The board. It holds its image once, in its memory.
#[derive(Debug, Drop)]
pub struct Board {
    iunit: InstrUnit,
    dunit: DataUnit,
    regs: RegFile,
    memory: Memory,
    ctrl: Control,
    book: Book,
    // from parts, and not before a program's first instruction
    begun: bool,
}

impl Model for Board {
    ghost use Rattle.m88_board.specs.Board.{BoardView};
    ghost use Rattle.m88_board.specs.Kept.{IsKept};

    ghost Value = { BoardView };

    ghost view = { λ b. record {
      slots = b.iunit;
      pending = b.dunit;
      file = b.regs;
      memory = b.memory;
      control = b.ctrl;
      book = b.book;
      begun = b.begun;
    } };

    ghost invariant = { λ b. IsKept (record {
      slots = b.iunit;
      pending = b.dunit;
      file = b.regs;
      memory = b.memory;
      control = b.ctrl;
      book = b.book;
      begun = b.begun;
    }) };
}

impl Board {
    /// A board over an image, before its first event: the pages that are named are absent, and it retires at most
    /// `limit` instructions. `mxm` is the bit MXM of its PSR, set where misaligned accesses are rounded down. The first
    /// instruction is that of the word at the image's start, its two low bits cleared.
    pub fn new(
        alloc: Global,
        image: &Image,
        absent: &Absent,
        limit: u32,
        mxm: bool,
    ) -> Result<Board, NoMemory>
        requires pages { NamesPages absent.now }
        requires small { limit ≤ most_retired }
        ensures limit { IfOk result (λ b. b.limit ≡ limit) }
        ensures named { IfOk result (λ b. b.named ≡ absent.now) }
        ensures image { IfOk result (λ b. b.memory.image ≡ image.now) }
        ensures control { IfOk result (λ b. b.control ≡ at_start mxm) }
        ensures events { IfOk result (λ b. b.events ≡ 0) }
        ensures begun { IfOk result (λ b. b.begun ≡ false) }
        ensures is_image { IsImage image.now }
        ensures program { (p : Program) × IsProgramOf image.now p × (p.mxm ≡ mxm) }
        ensures at { IfOk result (λ b. (p : Program) (schedule : List LetterValue)
            → IsProgramOf image.now p → p.mxm ≡ mxm
            → IsAt (run_with p (absent_in absent.now) limit schedule) opening_moment b) }
    {
        // What always holds of an image is told with its parts.
        prove!(image.part_count() <= image.len());
        let memory = Memory::new(alloc, image, absent)?;
        let entry = image.start() / 4 * 4;
        let e0 = lacks_word(&memory, entry);
        let e1 = lacks_word(&memory, entry.wrapping_add(4));
        Ok(Board {
            iunit: InstrUnit::new(entry, e0, e1),
            dunit: DataUnit::new(),
            regs: RegFile::new(),
            memory,
            ctrl: Control::new(mxm),
            book: Book::new(alloc, absent.copy(), limit),
            begun: false,
        })
    }

    /// Whether the next event may issue nothing: the program has ended, or the limit is reached.
    fn is_idle(&self) -> bool
        ensures { result ≡ is_idle_board self.now }
    {
        self.book.end.is_some() || self.book.retired == self.book.limit
    }

    /// Passes the instruction behind a taken branch over.
    fn pass(&mut self)
        requires going { is_idle_board self.old ≡ false }
        requires bubble { self.old.slots.nip.v ≡ false }
        ensures { Brings LetterValue.Issue self.old BriefValue.Bubble self.new }
    {
        let lacks = lacks_behind(&self.memory, self.iunit.following().addr);
        self.iunit.pass_bubble(lacks);
    }

    /// The record that a data fault now would leave.
    pub fn pipe(&self) -> Record
        ensures value { (p : Program) → IsProgramOf self.now.memory.image p
            → result ≡ record_by p self.now.limit (local_of self.now) }
        ensures moment { (r : Run) (m : Moment) → IsAt r m self.now
            → result ≡ record_at r m }
        ensures sxip { result.sxip ≡ slot_word self.now.slots.xip }
        ensures snip { result.snip ≡ slot_word self.now.slots.nip }
        ensures sfip { result.sfip ≡ slot_word self.now.slots.fip }
        ensures resumes { resumed self.now.slots result.snip result.sfip ≡ self.now.slots }
        ensures words { is_some self.now.ended ≡ false
            → IsRecordOf result self.now.pending self.now.control }
        ensures ssbr { bit_at result.ssbr 0 ≡ 0 }
    {
        let (sxip, snip, sfip) = self.iunit.shadow();
        Record {
            event: self.book.events + 1,
            epsr: self.status(),
            sxip,
            snip,
            sfip,
            ssbr: self.regs.busy(),
            triples: self.dunit.triples(),
        }
    }

    /// The status of the program: PSR, or EPSR once it has ended.
    fn status(&self) -> u32
        ensures { result ≡ epsr_of self.now }
    {
        let number = if self.book.end.is_some() {
            cr::EPSR
        } else {
            cr::PSR
        };
        match self.ctrl.ldcr(number) {
            Some(status) => status,
            None => unreachable!(),
        }
    }

    /// Answers the oldest transaction, whose page is present.
    fn reply(&mut self, oldest: &Access)
        requires oldest { slice_get self.old.pending 0 ≡ Some oldest.now }
        requires present { absent_of self.old.memory (page_number oldest.now.addr) ≡ false }
        ensures { Brings LetterValue.Answer self.old BriefValue.Answered self.new }
    {
        complete(oldest, &mut self.dunit, &mut self.memory, &mut self.regs);
        self.book.done += 1;
        self.book.answers += 1;
    }

    /// The oldest transaction meets an absent page: its record stays, and the monitor finishes all that are
    /// pending.
    fn fault(&mut self) -> Result<Brief, NoMemory>
        requires { answer_choice self.old.pending (absent_of self.old.memory) ≡ faults }
        ensures { BringsOrStays LetterValue.Answer self.old result self.new }
    {
        let fault = self.pipe();
        self.book.records.push(fault)?;
        let (done, restart) = serve_all(
            fault,
            &mut self.dunit,
            &mut self.ctrl,
            &mut self.regs,
            &mut self.memory,
        );
        self.iunit.resume(restart.snip, restart.sfip);
        self.book.done += u32::from(done);
        Ok(Brief::Faulted)
    }

    /// The letter `r`.
    // Inlined, it costs next to nothing where nothing is pending, as at most of these letters.
    #[inline(always)]
    fn answer(&mut self) -> Result<Brief, NoMemory>
        ensures { BringsOrStays LetterValue.Answer self.old result self.new }
    {
        match self.dunit.oldest() {
            Some(_) => self.answer_oldest(),
            None => Ok(Brief::Idle),
        }
    }

    /// The letter `r` over the transactions that are pending.
    // Not inlined, so that the loop over the letters stays small. The oldest is asked for here once more: handed on, it
    // is made in the loop, which costs more than to ask again.
    #[inline(never)]
    fn answer_oldest(&mut self) -> Result<Brief, NoMemory>
        ensures { BringsOrStays LetterValue.Answer self.old result self.new }
    {
        let Some(oldest) = self.dunit.oldest() else {
            return Ok(Brief::Idle);
        };
        if self.memory.is_absent(oldest.addr / PAGE_BYTES) {
            return self.fault();
        }
        self.reply(&oldest);
        Ok(Brief::Answered)
    }

    /// The letter `e`: every page is absent until it is supplied.
    fn evict(&mut self) -> Brief
        ensures brings { Brings LetterValue.Evict self.old result self.new }
        ensures evicts { EvictsAll self.old (Ok result) self.new }
    {
        self.memory.evict_all();
        Brief::Evicted
    }

    /// The program ends by a vector, with nothing pending.
    fn finish(&mut self, vector: u16, end: End) -> Brief
        requires vector { vector < 512 }
        requires due { IsDue self.old }
        requires ends { ComesToEnd end self.old }
        ensures { Brings LetterValue.Issue self.old result self.new }
    {
        enter(&mut self.ctrl, &self.iunit, vector);
        self.book.end = Some(end);
        Brief::Ended
    }

    /// Puts a byte out for the next instruction.
    fn put_out(&mut self, byte: u8) -> Result<Brief, NoMemory>
        requires next { IsFetched self.old }
        requires comes { IssueComesTo (serves byte) self.old }
        ensures { BringsOrStays LetterValue.Issue self.old result self.new }
    {
        self.book.out.push(byte)?;
        let next = self.iunit.following().addr;
        advance(
            &mut self.iunit,
            &self.memory,
            (next, next.wrapping_add(4)),
            false,
        );
        self.book.retired += 1;
        visit(&mut self.ctrl, &self.iunit);
        Ok(Brief::Served(byte))
    }

    /// The next word can't be fetched or is no instruction, or the next instruction raises: the program ends by
    /// this vector, or waits for an empty data unit.
    fn raise(&mut self, vector: u16) -> Brief
        requires vector { vector < 512 }
        requires due { IsDue self.old }
        requires comes { IssueComesTo
            (stopping (by_vector vector (pc_of self.old.slots)) self.old.pending) self.old }
        ensures { Brings LetterValue.Issue self.old result self.new }
    {
        if self.is_pending() {
            return Brief::Stalled(Why::Sync);
        }
        let at = self.iunit.candidate().addr;
        self.finish(vector, End::Vector { vector, at })
    }

    /// The next instruction is a taken trap, and nothing is pending.
    fn trap(&mut self, vector: u16) -> Result<Brief, NoMemory>
        requires vector { vector < 512 }
        requires next { IsFetched self.old }
        requires empty { self.old.pending ≡ [] }
        requires comes { IssueComesTo
            (turn_choice (trapped vector self.old.file.numbers (pc_of self.old.slots))) self.old }
        ensures { BringsOrStays LetterValue.Issue self.old result self.new }
    {
        let at = self.iunit.candidate().addr;
        match service(vector, &self.regs) {
            Service::Out(byte) => self.put_out(byte),
            Service::End => Ok(self.finish(vector, End::Exit { at })),
            Service::Unserved => Ok(self.finish(vector, End::Vector { vector, at })),
        }
    }

    /// The register with the least number, other than r0, that an instruction uses or writes and that waits.
    fn busy_register(&self, line: &Line) -> Option<Reg>
        requires { HasInvolved line.now }
        ensures { option_map number_of result
            ≡ busy_register (Some line.now.instr) self.now.pending }
    {
        let both = self.regs.busy() & line.involved;
        if both == 0 {
            return None;
        }
        Some(Reg::from_low_bits(both.trailing_zeros()))
    }

    /// One more event is counted.
    #[tactic(auto, unfolding(crate::specs::Board::completed_of))]
    fn count(&mut self)
        requires { self.old.events < most_events }
        ensures counted { self.new ≡ event_counted self.old }
        ensures kept { IsKept self.new }
    {
        self.book.events += 1;
    }
}
