//! The registers with the word of those that wait.
#![tactic(auto, unfolding(crate::specs::Registers::waiting_of))]

ghost use Rattle.std.specs.Prelude.{◌≡◌, ◌<◌, ◌↔◌, ℕ, true, false, replicate, slice_index, IsErr, IsTrue, IfOk};
ghost use Rattle.m88_base.specs.Reg.{number_of, with_register};
ghost use Rattle.m88_base.specs.RegisterSet.{register_bits, registers_in, with_member};
ghost use Rattle.m88_scoreboard.specs.Registers.{none_waits, shown_at, waiting_of};

use crate::busy::Busy;
use m88_base::Reg;
use std::marker::Model;

/// The 32 general registers and the set of those that wait for a load, a bit for each. r0 is 0 and never waits.
#[derive(Drop, Debug)]
pub struct RegFile {
    numbers: [u32; 32],
    waits: u32,
}

impl Model for RegFile {
    ghost use Rattle.m88_scoreboard.specs.Registers.{IsFile, Registers};

    ghost Value = { Registers };

    ghost view = { λ file. record { numbers = file.numbers; waits = file.waits } };

    ghost invariant = { λ file. IsFile (record { numbers = file.numbers; waits = file.waits }) };
}

impl RegFile {
    /// All registers 0, and none waits.
    pub fn new() -> RegFile
        ensures numbers { result.numbers ≡ replicate 32 0 }
        ensures waiting { waiting_of result ≡ none_waits }
    {
        RegFile {
            numbers: [0; 32],
            waits: 0,
        }
    }

    /// All registers with these values, of which r0 has 0, and none waits.
    pub fn of(values: [u32; 32]) -> RegFile
        requires { slice_index values 0 ≡ 0 }
        ensures numbers { result.numbers ≡ values }
        ensures waiting { waiting_of result ≡ none_waits }
    {
        RegFile {
            numbers: values,
            waits: 0,
        }
    }

    /// The value of a register, or `Busy` where it waits.
    pub fn get(&self, r: Reg) -> Result<u32, Busy>
        ensures busy { IsErr result ↔ IsTrue (waiting_of self.now (number_of r)) }
        ensures value { IfOk result (λ value. value ≡ slice_index self.now.numbers (number_of r)) }
        ensures zero { number_of r ≡ 0 → IfOk result (λ value. value ≡ 0) }
        ensures zero_ready { number_of r ≡ 0 → waiting_of self.now 0 ≡ false }
    {
        if self.waits(r.index()) {
            Err(Busy)
        } else {
            Ok(self.numbers[r.index()])
        }
    }

    /// Whether a register waits, by its number.
    fn waits(&self, r: usize) -> bool
        requires { r < 32 }
        ensures { result ≡ waiting_of self.now r }
    {
        (self.waits >> r) % 2 == 1
    }

    /// The values of all registers. One that waits shows 0.
    pub fn values(&self) -> [u32; 32]
        ensures each { (r : ℕ) → r < 32 → slice_index result r ≡ shown_at self.now r }
        ensures zero { slice_index result 0 ≡ 0 }
        ensures whole { waiting_of self.now ≡ none_waits → result ≡ self.now.numbers }
    {
        let mut values = self.numbers;
        for r in 0..32 {
            if self.waits(r) {
                values[r] = 0;
            }
        }
        values
    }

    /// What the registers hold, also those that wait.
    pub fn numbers(&self) -> &[u32; 32]
        ensures { result.now ≡ self.now.numbers }
    {
        &self.numbers
    }

    /// Writes a register that doesn't wait; nothing happens to r0.
    pub fn set(&mut self, r: Reg, value: u32)
        requires { waiting_of self.old (number_of r) ≡ false }
        ensures numbers { self.new.numbers ≡ with_register r value self.old.numbers }
        ensures waiting { waiting_of self.new ≡ waiting_of self.old }
    {
        if r != Reg::ZERO {
            self.numbers[r.index()] = value;
        }
    }

    /// A load into a register is under way: it waits, except r0.
    pub fn mark(&mut self, r: Reg)
        ensures numbers { self.new.numbers ≡ self.old.numbers }
        ensures waiting { waiting_of self.new
            ≡ with_member (number_of r) true (waiting_of self.old) }
    {
        if r != Reg::ZERO {
            self.waits |= 1 << r.number();
        }
    }

    /// The load into a register is answered: it waits no more.
    pub fn clear(&mut self, r: Reg)
        ensures numbers { self.new.numbers ≡ self.old.numbers }
        ensures waiting { waiting_of self.new
            ≡ with_member (number_of r) false (waiting_of self.old) }
    {
        self.waits &= !(1 << r.number());
    }

    /// The set of the registers that wait, a bit for each.
    pub fn busy(&self) -> u32
        ensures value { result ≡ register_bits (waiting_of self.now) }
        ensures back { registers_in result ≡ waiting_of self.now }
    {
        self.waits
    }

    /// Makes the registers wait that a set has, and no others. Bit 0 of the set counts for nothing.
    pub fn restore(&mut self, bits: u32)
        ensures numbers { self.new.numbers ≡ self.old.numbers }
        ensures waiting { waiting_of self.new ≡ registers_in bits }
    {
        self.waits = bits / 2 * 2;
    }
}
