//! What a board shows of itself. None of these calls takes memory.

ghost use Rattle.std.specs.Prelude.{ℕ, Bool, true, ◌≡◌, ◌%◌, length, option_map};
ghost use Rattle.std.specs.Int.{to_be_bytes, w32};
ghost use Rattle.m88_base.specs.Image.{byte_at};
ghost use Rattle.m88_base.specs.Reg.{number_of};
ghost use Rattle.m88_ctrl.specs.ControlRegisters.{carry_of};
ghost use Rattle.m88_event.specs.Local.{is_over_by, register_seen, register_shown};
ghost use Rattle.m88_event.specs.Timeline.{Moment, Run, is_drained, is_over, nip_at};
ghost use Rattle.m88_isa.specs.Bus.{in_words};
ghost use Rattle.m88_isa.specs.History.{bus_at, pending_at};
ghost use Rattle.m88_isa.specs.ImageProgram.{IsProgramOf};
ghost use Rattle.m88_isa.specs.Machine.{Program, four_bytes, state};
ghost use Rattle.m88_mem.specs.DataBus.{bus_of};
ghost use Rattle.m88_board.specs.Board.{completed_of, local_of};
ghost use Rattle.m88_board.specs.Kept.{IsKept};
ghost use Rattle.m88_board.specs.Moves.{IsAt};
ghost use Rattle.m88_board.specs.Shown.{ArePointers, AreRegisters, IsDataBus, IsStatus};

use super::Board;
use m88_base::Reg;
use m88_ctrl::Control;
use m88_dunit::{DataUnit, MOST_PENDING};
use m88_iunit::{InstrUnit, Slot};
use m88_mem::Memory;
use m88_scoreboard::RegFile;

impl Board {
    /// Whether a run is over: nothing is pending, and the program has ended or the limit is reached.
    pub fn is_over(&self) -> bool
        ensures value { result ≡ is_over_by self.now.limit (local_of self.now) }
        ensures moment { (r : Run) (m : Moment) → IsAt r m self.now
            → result ≡ is_over r m }
    {
        !self.is_pending() && self.is_idle()
    }

    /// The events so far.
    pub fn events(&self) -> u64
        ensures value { result ≡ self.now.events }
        ensures moment { (r : Run) (m : Moment) → IsAt r m self.now
            → result ≡ m.events }
        ensures kept { IsKept self.now }
    {
        self.book.events
    }

    /// The instructions that were retired.
    pub fn issued(&self) -> u32
        ensures value { result ≡ self.now.retired }
        ensures moment { (r : Run) (m : Moment) → IsAt r m self.now
            → result ≡ m.retired }
    {
        self.book.retired
    }

    /// The transactions that were answered or finished.
    pub fn done(&self) -> u32
        ensures value { result ≡ self.now.done }
        ensures moment { (r : Run) (m : Moment) → IsAt r m self.now
            → result ≡ m.done }
    {
        self.book.done
    }

    /// The records of data faults so far.
    pub fn faults(&self) -> u32
        ensures value { result ≡ length self.now.records }
        ensures moment { (r : Run) (m : Moment) → IsAt r m self.now
            → result ≡ length m.records }
    {
        self.book.records.as_slice().len() as u32
    }

    /// The transactions that are pending, at most three.
    pub fn pending(&self) -> u8
        ensures value { result ≡ length self.now.pending }
        ensures moment { (r : Run) (m : Moment) → IsAt r m self.now
            → result ≡ length (pending_at r.program m.retired m.done) }
    {
        MOST_PENDING as u8 - self.dunit.room()
    }

    /// NIP.
    pub fn next_slot(&self) -> Slot
        ensures value { result ≡ self.now.slots.nip }
        ensures moment { (r : Run) (m : Moment) → IsAt r m self.now
            → result ≡ nip_at r.program m }
    {
        self.iunit.candidate()
    }

    /// The value of a register, or None where it waits for a load.
    pub fn register(&self, r: Reg) -> Option<u32>
        ensures value { result
            ≡ register_seen self.now.pending (completed_of self.now).regs (number_of r) }
        ensures moment { (run : Run) (m : Moment) → IsAt run m self.now
            → result ≡ register_shown run.program m (number_of r) }
    {
        self.regs.get(r).ok()
    }

    /// The carry.
    pub fn carry(&self) -> bool
        ensures value { result ≡ carry_of self.now.control }
        ensures moment { (r : Run) (m : Moment) → IsAt r m self.now
            → result ≡ (state r.program m.retired).carry }
    {
        self.ctrl.carry()
    }

    /// The word of the data bus at the byte address of a word, whether its page is absent or not.
    pub fn word(&self, addr: u32) -> u32
        requires { addr % 4 ≡ 0 }
        ensures value { result ≡ bus_of self.now.memory addr }
        ensures moment { (r : Run) (m : Moment) → IsAt r m self.now
            → result ≡ bus_at r.program m.retired m.done addr }
        ensures drained { (r : Run) (m : Moment) → IsAt r m self.now
            → is_drained r.program m ≡ true
            → result ≡ in_words (state r.program m.retired).memory addr }
    {
        self.memory.word(addr)
    }

    /// The word of the instruction bus at the byte address of a word, or None where one of the four bytes isn't in
    /// the image.
    pub fn fetched(&self, addr: u32) -> Option<u32>
        requires { addr % 4 ≡ 0 }
        ensures value { option_map (λ word. to_be_bytes w32 word) result
            ≡ four_bytes (byte_at self.now.memory.image) addr }
        ensures moment { (r : Run) (m : Moment) → IsAt r m self.now
            → option_map (λ word. to_be_bytes w32 word) result ≡ four_bytes r.program.byte addr }
    {
        self.memory.fetch(addr)
    }

    /// The instruction pointers.
    pub fn iunit(&self) -> &InstrUnit
        ensures value { result.now ≡ self.now.slots }
        ensures moment { (r : Run) (m : Moment) → IsAt r m self.now
            → ArePointers r.program m result.now }
    {
        &self.iunit
    }

    /// The pending transactions.
    pub fn dunit(&self) -> &DataUnit
        ensures value { result.now ≡ self.now.pending }
        ensures moment { (r : Run) (m : Moment) → IsAt r m self.now
            → result.now ≡ pending_at r.program m.retired m.done }
    {
        &self.dunit
    }

    /// The registers, and which of them wait.
    pub fn regfile(&self) -> &RegFile
        ensures value { result.now ≡ self.now.file }
        ensures moment { (r : Run) (m : Moment) → IsAt r m self.now
            → AreRegisters r.program m result.now }
    {
        &self.regs
    }

    /// Memory, which holds the image.
    pub fn memory(&self) -> &Memory
        ensures value { result.now ≡ self.now.memory }
        ensures moment { (r : Run) (m : Moment) → IsAt r m self.now
            → IsDataBus r m result.now }
        ensures program { (p : Program) × IsProgramOf result.now.image p }
    {
        &self.memory
    }

    /// The control registers.
    pub fn ctrl(&self) -> &Control
        ensures value { result.now ≡ self.now.control }
        ensures moment { (r : Run) (m : Moment) → IsAt r m self.now
            → IsStatus r.program m result.now }
    {
        &self.ctrl
    }
}
