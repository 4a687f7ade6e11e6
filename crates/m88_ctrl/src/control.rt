//! The control registers and how an exception and a return from it change them.
ghost use Rattle.std.specs.Prelude.{◌≡◌, ◌<◌, ◌≤◌, ◌↔◌, Some, false, slice_get, slice_set, IsTrue, IfSome};
ghost use Rattle.std.specs.Int.{bit_at};
ghost use Rattle.m88_ctrl.specs.ControlRegisters.{at_start, by_number, carry_of, entered, handler_of, kept_of, mxm_of, restart_of, returned, triples_by_age, with_carry};

use crate::cr;
use crate::frame::{Frame, Restart};
use m88_base::{NO_TRIPLE, Triple};
use std::marker::Model;

/// The status at the start: the user's mode, and the carry and MXM are clear.
const PSR_AT_START: u32 = 0x3F8;

/// The carry's bit of PSR.
const CARRY: u32 = 1 << 28;

/// MXM, PSR's bit for misaligned accesses: they are rounded down where it is set, and raise where it is clear.
const MXM: u32 = 1 << 2;

/// PSR's bit of the supervisor's mode.
const MODE: u32 = 1 << 31;

/// PSR's bit of the first special function unit being off.
const SFD1: u32 = 1 << 3;

/// PSR's bit of interrupts being off.
const IND: u32 = 1 << 1;

/// PSR's bit of the shadow registers being frozen.
const SFRZ: u32 = 1 << 0;

/// The bits that an exception sets in PSR.
const EXCEPTION_BITS: u32 = MODE | SFD1 | IND | SFRZ;

/// The 21 control registers. Bit 0 of SSBR is never set.
#[derive(Drop, Debug)]
pub struct Control {
    pid: u32,
    psr: u32,
    epsr: u32,
    ssbr: u32,
    sxip: u32,
    snip: u32,
    sfip: u32,
    vbr: u32,
    t2: Triple,
    t1: Triple,
    t0: Triple,
    sr0: u32,
    sr1: u32,
    sr2: u32,
    sr3: u32,
}

impl Model for Control {
    ghost use Rattle.std.specs.Prelude.{◌≡◌};
    ghost use Rattle.std.specs.Int.{bit_at};
    ghost use Rattle.m88_ctrl.specs.ControlRegisters.{ControlRegisters};

    ghost Value = { ControlRegisters };

    ghost view = { λ c. record {
      pid = c.pid;
      psr = c.psr;
      epsr = c.epsr;
      ssbr = c.ssbr;
      sxip = c.sxip;
      snip = c.snip;
      sfip = c.sfip;
      vbr = c.vbr;
      t2 = c.t2;
      t1 = c.t1;
      t0 = c.t0;
      sr0 = c.sr0;
      sr1 = c.sr1;
      sr2 = c.sr2;
      sr3 = c.sr3;
    } };

    ghost invariant = { λ c. bit_at c.ssbr 0 ≡ 0 };
}

impl Control {
    /// The registers at the start: all but PSR are 0, and MXM is set or clear.
    pub fn new(mxm: bool) -> Control
        ensures { result ≡ at_start mxm }
    {
        Control {
            pid: 0,
            psr: if mxm {
                PSR_AT_START + MXM
            } else {
                PSR_AT_START
            },
            epsr: 0,
            ssbr: 0,
            sxip: 0,
            snip: 0,
            sfip: 0,
            vbr: 0,
            t2: NO_TRIPLE,
            t1: NO_TRIPLE,
            t0: NO_TRIPLE,
            sr0: 0,
            sr1: 0,
            sr2: 0,
            sr3: 0,
        }
    }

    /// The control register of a number, or None where there is none: the number is above 20.
    pub fn ldcr(&self, n: u8) -> Option<u32>
        ensures value { result ≡ slice_get (by_number self.now) n }
        ensures ssbr { n ≡ 3 → IfSome result (λ word. bit_at word 0 ≡ 0) }
    {
        match n {
            cr::PID => Some(self.pid),
            cr::PSR => Some(self.psr),
            cr::EPSR => Some(self.epsr),
            cr::SSBR => Some(self.ssbr),
            cr::SXIP => Some(self.sxip),
            cr::SNIP => Some(self.snip),
            cr::SFIP => Some(self.sfip),
            cr::VBR => Some(self.vbr),
            cr::DMT2 => Some(self.t2.dmt),
            cr::DMD2 => Some(self.t2.dmd),
            cr::DMA2 => Some(self.t2.dma),
            cr::DMT1 => Some(self.t1.dmt),
            cr::DMD1 => Some(self.t1.dmd),
            cr::DMA1 => Some(self.t1.dma),
            cr::DMT0 => Some(self.t0.dmt),
            cr::DMD0 => Some(self.t0.dmd),
            cr::DMA0 => Some(self.t0.dma),
            cr::SR0 => Some(self.sr0),
            cr::SR1 => Some(self.sr1),
            cr::SR2 => Some(self.sr2),
            cr::SR3 => Some(self.sr3),
            _ => None,
        }
    }

    /// Stores a word into the control register of a number, and answers whether that can be: the number is
    /// neither 0 nor above 20. SSBR keeps bit 0 clear.
    pub fn stcr(&mut self, n: u8, value: u32) -> bool
        ensures valid { IsTrue result ↔ ((0 < n) × (n ≤ 20)) }
        ensures stored { IsTrue result
            → by_number self.new ≡ slice_set (by_number self.old) n (kept_of n value) }
        ensures refused { result ≡ false → self.new ≡ self.old }
    {
        if n == cr::PID || n > cr::SR3 {
            return false;
        }
        self.store(n, value);
        true
    }

    /// Stores a word into the control register of a number, which can be written.
    fn store(&mut self, n: u8, value: u32)
        requires writable { 0 < n }
        requires there { n ≤ 20 }
        ensures { by_number self.new ≡ slice_set (by_number self.old) n (kept_of n value) }
    {
        match n {
            cr::PSR => self.psr = value,
            cr::EPSR => self.epsr = value,
            cr::SSBR => self.ssbr = value / 2 * 2,
            cr::SXIP => self.sxip = value,
            cr::SNIP => self.snip = value,
            cr::SFIP => self.sfip = value,
            cr::VBR => self.vbr = value,
            cr::DMT2 => self.t2.dmt = value,
            cr::DMD2 => self.t2.dmd = value,
            cr::DMA2 => self.t2.dma = value,
            cr::DMT1 => self.t1.dmt = value,
            cr::DMD1 => self.t1.dmd = value,
            cr::DMA1 => self.t1.dma = value,
            cr::DMT0 => self.t0.dmt = value,
            cr::DMD0 => self.t0.dmd = value,
            cr::DMA0 => self.t0.dma = value,
            cr::SR0 => self.sr0 = value,
            cr::SR1 => self.sr1 = value,
            cr::SR2 => self.sr2 = value,
            cr::SR3 => self.sr3 = value,
            _ => unreachable!(),
        }
    }

    /// The carry, a bit of PSR.
    #[tactic(auto, using(crate::proofs::Carry::tested))]
    pub fn carry(&self) -> bool
        ensures { result ≡ carry_of self.now }
    {
        self.psr & CARRY != 0
    }

    /// MXM, a bit of PSR: set where misaligned accesses are rounded down.
    #[tactic(auto, using(crate::proofs::Carry::mxm_tested))]
    pub fn mxm(&self) -> bool
        ensures { result ≡ mxm_of self.now }
    {
        self.psr & MXM != 0
    }

    /// Sets or clears the carry.
    #[tactic(auto, using(
    // the carry that is set, that is cleared, and that is read back, and MXM that stays
    crate::proofs::Carry::set, crate::proofs::Carry::cleared, crate::proofs::Carry::shown, crate::proofs::Carry::mxm_kept))]
    pub fn set_carry(&mut self, c: bool)
        ensures state { self.new ≡ record self.old { psr = with_carry c self.old.psr } }
        ensures carry { carry_of self.new ≡ c }
        ensures mxm { mxm_of self.new ≡ mxm_of self.old }
    {
        if c {
            self.psr |= CARRY;
        } else {
            self.psr &= !CARRY;
        }
    }

    /// Enters the exception of a vector: the status is saved, the frame fills its registers, and the
    /// supervisor's mode begins. The answer is the byte address of the vector's handler. A return with nothing
    /// between puts the status back, and hands the frame's scoreboard and pointers back.
    #[tactic(auto, using(crate::proofs::Carry::mxm_entered))]
    pub fn enter(&mut self, vector: u16, frame: &Frame) -> u32
        requires vector { vector < 512 }
        requires ssbr { bit_at frame.now.ssbr 0 ≡ 0 }
        ensures mxm { mxm_of self.new ≡ mxm_of self.old }
        ensures handler { result ≡ handler_of self.old.vbr vector }
        ensures state { self.new ≡ entered frame.now self.old }
        ensures returning { (returned self.new).psr ≡ self.old.psr }
        ensures restart { restart_of self.new
            ≡ record { ssbr = frame.now.ssbr; snip = frame.now.snip; sfip = frame.now.sfip } }
    {
        self.epsr = self.psr;
        self.psr |= EXCEPTION_BITS;
        self.ssbr = frame.ssbr;
        self.sxip = frame.sxip;
        self.snip = frame.snip;
        self.sfip = frame.sfip;
        [self.t0, self.t1, self.t2] = frame.triples;
        self.vbr.wrapping_add(8 * u32::from(vector))
    }

    /// Returns from an exception: the saved status is the status again. The answer is what execution goes on
    /// by.
    pub fn rte(&mut self) -> Restart
        ensures answer { result ≡ restart_of self.old }
        ensures state { self.new ≡ returned self.old }
    {
        self.psr = self.epsr;
        Restart {
            ssbr: self.ssbr,
            snip: self.snip,
            sfip: self.sfip,
        }
    }

    /// The words of a data transaction by its place, 0 the oldest.
    pub fn triple(&self, index: usize) -> Triple
        requires { index < 3 }
        ensures { slice_get (triples_by_age self.now) index ≡ Some result }
    {
        match index {
            0 => self.t0,
            1 => self.t1,
            _ => self.t2,
        }
    }
}
