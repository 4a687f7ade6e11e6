//! The three instruction pointers and how they move.
ghost use Rattle.std.specs.Prelude.{◌≡◌, ◌%◌, true, false};
ghost use Rattle.m88_base.specs.Slot.{IsWordSlot, slot_of, slot_word, squashed_slot, valid_slot};
ghost use Rattle.m88_iunit.specs.Pointers.{AreWordSlots, advanced, at_entry, resumed, word_behind};

use m88_base::Slot;
use std::marker::Model;

/// The instruction pointers XIP, NIP and FIP. Each has the address of a word.
#[derive(Drop, Debug)]
pub struct InstrUnit {
    xip: Slot,
    nip: Slot,
    fip: Slot,
}

impl Model for InstrUnit {
    ghost use Rattle.m88_iunit.specs.Pointers.{AreWordSlots, Pointers};

    ghost Value = { Pointers };

    ghost view = { λ unit. record { xip = unit.xip; nip = unit.nip; fip = unit.fip } };

    ghost invariant = { λ unit. AreWordSlots
        (record { xip = unit.xip; nip = unit.nip; fip = unit.fip }) };
}

impl InstrUnit {
    /// The pointers at the start of a program: no instruction is retired yet, the one at `entry` is next and the
    /// one behind it is being fetched. `entry_e` and `behind_e` say that these can't be fetched.
    pub fn new(entry: u32, entry_e: bool, behind_e: bool) -> InstrUnit
        requires { entry % 4 ≡ 0 }
        ensures { result ≡ at_entry entry entry_e behind_e }
    {
        InstrUnit {
            xip: Slot {
                addr: 0,
                v: false,
                e: false,
            },
            nip: fetched(entry, entry_e),
            fip: fetched(entry.wrapping_add(4), behind_e),
        }
    }

    /// The pointers as they are given.
    pub fn at(xip: Slot, nip: Slot, fip: Slot) -> InstrUnit
        requires xip { IsWordSlot xip }
        requires nip { IsWordSlot nip }
        requires fip { IsWordSlot fip }
        ensures { result ≡ record { xip = xip; nip = nip; fip = fip } }
    {
        InstrUnit { xip, nip, fip }
    }

    /// The pointers of the words of XIP, NIP and FIP, as an exception saves them.
    pub fn from_words(sxip: u32, snip: u32, sfip: u32) -> InstrUnit
        ensures { result ≡ record {
          xip = slot_of sxip;
          nip = slot_of snip;
          fip = slot_of sfip;
        } }
    {
        InstrUnit::at(slot_of(sxip), slot_of(snip), slot_of(sfip))
    }

    /// The instruction retired last, XIP.
    pub fn xip(&self) -> Slot
        ensures value { result ≡ self.now.xip }
        ensures word { IsWordSlot result }
    {
        self.xip
    }

    /// The next instruction, NIP, which is the candidate for execution.
    pub fn candidate(&self) -> Slot
        ensures value { result ≡ self.now.nip }
        ensures word { IsWordSlot result }
    {
        self.nip
    }

    /// The instruction that is being fetched, FIP, which follows the next one.
    pub fn following(&self) -> Slot
        ensures value { result ≡ self.now.fip }
        ensures word { IsWordSlot result }
    {
        self.fip
    }

    /// The next instruction is retired, and those at `next` and at `behind` follow it. With a bubble the one
    /// behind it was fetched already and is passed over before them.
    pub fn advance(&mut self, next: u32, next_e: bool, behind: u32, behind_e: bool, bubble: bool)
        requires valid { self.old.nip.v ≡ true }
        requires next { next % 4 ≡ 0 }
        requires further { behind % 4 ≡ 0 }
        ensures straight { bubble ≡ false →
            self.new ≡ advanced self.old (valid_slot next next_e) (valid_slot behind behind_e) }
        ensures bubble { bubble ≡ true → self.new ≡ advanced self.old
            (squashed_slot (word_behind self.old.nip.addr)) (valid_slot next next_e) }
    {
        self.xip = self.nip;
        if bubble {
            self.nip = squashed(self.nip.addr.wrapping_add(4));
            self.fip = fetched(next, next_e);
        } else {
            self.nip = fetched(next, next_e);
            self.fip = fetched(behind, behind_e);
        }
    }

    /// Passes the next instruction over, and the one that was being fetched is next. `behind_e` says that the
    /// one behind that can't be fetched.
    pub fn pass_bubble(&mut self, behind_e: bool)
        requires { self.old.nip.v ≡ false }
        ensures { self.new ≡ record {
          xip = self.old.xip;
          nip = self.old.fip;
          fip = valid_slot (word_behind self.old.fip.addr) behind_e;
        } }
    {
        self.nip = self.fip;
        self.fip = fetched(self.nip.addr.wrapping_add(4), behind_e);
    }

    /// The words of XIP, NIP and FIP, which an exception saves. Resuming by the last two of them leaves the
    /// pointers as they are.
    pub fn shadow(&self) -> (u32, u32, u32)
        ensures value { result
            ≡ (slot_word self.now.xip, slot_word self.now.nip, slot_word self.now.fip) }
        ensures kept { resumed self.now result.1 result.2 ≡ self.now }
    {
        (
            slot_word(self.xip),
            slot_word(self.nip),
            slot_word(self.fip),
        )
    }

    /// Goes on by the words of NIP and FIP that a return from an exception hands back.
    pub fn resume(&mut self, snip: u32, sfip: u32)
        ensures value { self.new ≡ resumed self.old snip sfip }
        ensures nip { slot_word self.new.nip ≡ snip }
        ensures fip { slot_word self.new.fip ≡ sfip }
    {
        self.nip = slot_of(snip);
        self.fip = slot_of(sfip);
    }
}

/// The pointer to an instruction that is to be carried out.
fn fetched(addr: u32, e: bool) -> Slot
    ensures { result ≡ valid_slot addr e }
{
    Slot { addr, v: true, e }
}

/// The pointer to an instruction that is passed over.
fn squashed(addr: u32) -> Slot
    ensures { result ≡ squashed_slot addr }
{
    Slot {
        addr,
        v: false,
        e: false,
    }
}

/// The word of a pointer.
fn slot_word(slot: Slot) -> u32
    requires { IsWordSlot slot }
    ensures value { result ≡ slot_word slot }
    ensures back { slot_of result ≡ slot }
{
    slot.addr + 2 * u32::from(slot.v) + u32::from(slot.e)
}

/// The pointer of a word.
fn slot_of(word: u32) -> Slot
    ensures value { result ≡ slot_of word }
    ensures aligned { IsWordSlot result }
    ensures back { slot_word result ≡ word }
{
    Slot {
        addr: word / 4 * 4,
        v: word / 2 % 2 == 1,
        e: word % 2 == 1,
    }
}
