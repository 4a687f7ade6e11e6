//! A trace that is being written. It has room for each datum that isn't known yet.

ghost use Rattle.std.specs.Prelude.{ℕ, ◌∷◌, [], ◌≡◌, ◌≤◌, ◌<◌, ◌%◌, ◌++◌, drop, length, slice_get, take, IfSome, OnOk};
ghost use Rattle.m88_event.specs.EndText.{run_end_line};
ghost use Rattle.m88_isa.specs.Bus.{bus_after, bus_after_all, listed};
ghost use Rattle.m88_isa.specs.Memory.{AreWordAccesses, IsWordAccess};
ghost use Rattle.m88_isa.specs.declared.planned.Plan.TheVariants.{Go};
ghost use Rattle.m88_mem.specs.DataBus.{absent_of, bus_of};
ghost use Rattle.m88_trace.specs.Inside.Doings.{doing_line};
ghost use Rattle.m88_trace.specs.Inside.Sheets.{AreDue, AreMade, CanAdd, CanWait, HasAdded, HasFilled, HasFilledAll, IsBlank, sheet_accesses, sheet_text};
ghost use Rattle.m88_trace.specs.Lines.{access_text, accesses_text, datum_by, head_text, written_text};
ghost use Rattle.m88_trace.specs.declared.doing.Doing.TheVariants as doings;

use crate::parts::{push_begun, push_head, push_line, push_line_end, push_open, push_output};
use crate::upcoming::Upcoming;
use crate::waiting::Waiting;
use m88_base::{NoMemory, word_digits};
use m88_board::Board;
use m88_event::End;
use m88_isa::{Access, Accesses, Effect, datum, merge};
use m88_mem::PAGE_BYTES;
use m88_report::push_end;
use std::alloc::Global;

/// The digits of a datum.
const DATUM: usize = 8;

/// A trace that is being written.
#[derive(Drop, Debug)]
pub struct Sheet {
    pub text: Vec<u8>,
    /// The accesses that wait, the oldest first.
    pub waiting: Vec<Waiting>,
}

/// The data of the accesses that wait, if three do at most: that of the oldest first. Those that aren't known are 0.
#[derive(Clone, Copy, Default, Debug)]
pub struct Data {
    pub oldest: u32,
    pub second: u32,
    pub third: u32,
}

impl Sheet {
    /// A trace of which nothing is written.
    pub(crate) fn new(alloc: Global) -> Sheet
        ensures { IsBlank result }
    {
        Sheet {
            text: Vec::new(alloc),
            waiting: Vec::new(alloc),
        }
    }

    /// The text, where no access waits.
    pub(crate) fn finish(self) -> Vec<u8>
        ensures { (bus : ℕ → ℕ) → sheet_accesses self ≡ [] → result.items ≡ sheet_text self bus }
    {
        self.text
    }

    /// Writes the line of an instruction that makes its changes. The data of its accesses are waited for.
    pub(crate) fn issue(
        &mut self,
        next: &Upcoming,
        word: u32,
        effect: &Effect,
    ) -> Result<(), NoMemory>
        requires { CanAdd (Go effect.now) self.old }
        ensures { OnOk result (HasAdded
            (doing_line next.now.number next.now.at word (doings.Goes effect.now))
            (listed effect.now.accesses) self.old self.new) }
    {
        if effect.accesses.count == 0 {
            push_line(&mut self.text, next.number, next.at, word, effect.reg)?;
            return Ok(());
        }
        self.begin(next, word, effect)?;
        self.open_second(&effect.accesses)?;
        push_line_end(&mut self.text)?;
        Ok(())
    }

    /// Writes the line of an instruction for which a byte is put out.
    pub(crate) fn put_out(&mut self, next: &Upcoming, word: u32, byte: u8) -> Result<(), NoMemory>
        requires made { AreMade self.old }
        ensures { OnOk result (HasAdded
            (doing_line next.now.number next.now.at word (doings.Outputs byte)) [] self.old self.new) }
    {
        push_head(&mut self.text, next.number, next.at, word)?;
        push_output(&mut self.text, byte)?;
        push_line_end(&mut self.text)?;
        Ok(())
    }

    /// Writes the line of the end.
    pub(crate) fn end(&mut self, end: End) -> Result<(), NoMemory>
        requires made { AreMade self.old }
        ensures { OnOk result (HasAdded (λ _. run_end_line end) [] self.old self.new) }
    {
        push_end(&mut self.text, end)?;
        Ok(())
    }

    /// Writes the line of an instruction up to its first access, whose datum is waited for.
    // Inlined into the loop over the events, it would have each effect taken to pieces there and copied.
    #[inline(never)]
    fn begin(&mut self, next: &Upcoming, word: u32, effect: &Effect) -> Result<(), NoMemory>
        requires { CanWait effect.now.accesses.first self.old }
        ensures { OnOk result (HasAdded
            (λ bus. head_text next.now.number next.now.at word ++ written_text effect.now.reg
            ++ access_text effect.now.accesses.first bus)
            (effect.now.accesses.first ∷ []) self.old self.new) }
    {
        let access = effect.accesses.first;
        push_begun(
            &mut self.text,
            next.number,
            next.at,
            word,
            effect.reg,
            &access,
        )?;
        let at = self.text.len() - DATUM;
        push_waiting(&mut self.waiting, Waiting { access, at })?;
        Ok(())
    }

    /// Writes the second of one or two accesses up to its datum, which is waited for.
    #[tactic(auto, unfolding(crate::specs::Lines::accesses_text))]
    fn open_second(&mut self, accesses: &Accesses) -> Result<(), NoMemory>
        requires made { AreMade self.old }
        requires words { AreWordAccesses accesses.now.count accesses.now }
        requires some { 0 < accesses.now.count }
        ensures { OnOk result (HasAdded (accesses_text (drop 1 (listed accesses.now)))
            (drop 1 (listed accesses.now)) self.old self.new) }
    {
        if accesses.count == 1 {
            return Ok(());
        }
        self.open(&accesses.second)
    }

    /// Writes an access up to its datum, which is waited for.
    fn open(&mut self, access: &Access) -> Result<(), NoMemory>
        requires { CanWait access.now self.old }
        ensures { OnOk result (HasAdded (access_text access.now) (access.now ∷ [])
            self.old self.new) }
    {
        push_open(&mut self.text, access)?;
        let at = self.text.len() - DATUM;
        let access = *access;
        push_waiting(&mut self.waiting, Waiting { access, at })?;
        Ok(())
    }

    /// Writes the datum of the oldest access that waits, if one does.
    pub(crate) fn fill(&mut self, datum: u32)
        requires { AreMade self.old }
        ensures { HasFilled datum self.old self.new }
    {
        if self.waiting.is_empty() {
            return;
        }
        let at = self.waiting.remove(0).at;
        self.text[at..at + DATUM].copy_from_slice(&word_digits(datum));
    }

    /// Writes the data of all accesses that wait, of which there are three at most.
    pub(crate) fn fill_all(&mut self, due: Data)
        requires { AreMade self.old }
        ensures { HasFilledAll due self.old self.new }
    {
        self.fill(due.oldest);
        self.fill(due.second);
        self.fill(due.third);
    }

    /// The data that the next event of `r` may need, by the words that a board has now: that of the oldest access that
    /// waits, and where its page is absent, those of all, of which each gets what those before it leave.
    pub(crate) fn data(&self, board: &Board) -> Data
        requires { AreMade self.now }
        ensures { length (sheet_accesses self.now) ≤ 3
            → AreDue result (sheet_accesses self.now) (absent_of board.now.memory)
            (bus_of board.now.memory) }
    {
        if self.waiting.is_empty() {
            return Data::default();
        }
        let oldest = self.datum(board, 0);
        let page = self.waiting[0].access.addr / PAGE_BYTES;
        if !board.memory().is_absent(page) {
            return Data {
                oldest,
                ..Data::default()
            };
        }
        Data {
            oldest,
            second: self.datum(board, 1),
            third: self.datum(board, 2),
        }
    }

    /// The datum of one of the accesses that wait, by its number from 0, or 0 where there are fewer.
    #[tactic(auto, unfolding(crate::specs::Lines::datum_by, m88_isa::specs::Bus::loaded))]
    fn datum(&self, board: &Board, index: usize) -> u32
        requires { AreMade self.now }
        ensures { IfSome (slice_get (sheet_accesses self.now) index) (λ a. result ≡ datum_by a
            (bus_after_all (take index (sheet_accesses self.now)) (bus_of board.now.memory))) }
    {
        if index >= self.waiting.len() {
            return 0;
        }
        let access = self.waiting[index].access;
        if access.write {
            return access.value;
        }
        datum(
            access.en,
            access.signed,
            self.word(board, access.addr, index),
        )
    }

    /// The word at the byte address of a word once so many of the accesses that wait are made, by the words that a
    /// board has now.
    #[tactic(auto, unfolding(m88_isa::specs::Bus::bus_after_all))]
    fn word(&self, board: &Board, addr: u32, count: usize) -> u32
        requires made { AreMade self.now }
        requires word { addr % 4 ≡ 0 }
        requires count { count ≤ length self.now.waiting.items }
        ensures { result
            ≡ bus_after_all (take count (sheet_accesses self.now)) (bus_of board.now.memory) addr }
    {
        let mut word = board.word(addr);
        for waiting in &self.waiting[..count] {
            word = word_after(&waiting.access, addr, word);
        }
        word
    }
}

/// Appends an access that waits.
fn push_waiting(list: &mut Vec<Waiting>, one: Waiting) -> Result<(), NoMemory>
    ensures { OnOk result (list.new.items ≡ list.old.items ++ one ∷ []) }
{
    list.push(one).or(Err(NoMemory))
}

/// The word at a byte address after an access, by what it was before.
fn word_after(access: &Access, addr: u32, word: u32) -> u32
    requires made { IsWordAccess access.now }
    requires word { addr % 4 ≡ 0 }
    ensures { (bus : ℕ → ℕ) → word ≡ bus addr → result ≡ bus_after access.now bus addr }
{
    if !access.write {
        return word;
    }
    if access.addr != addr {
        return word;
    }
    merge(access.en, access.value, word)
}
