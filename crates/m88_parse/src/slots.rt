//! Operands of one or a few tokens, each from the place where it is wanted.
ghost use Rattle.std.specs.Prelude.{◌≡◌, ◌≤◌, ◌==◌, ◌||◌, length, IfOk, OnOk};
ghost use Rattle.m88_parse.specs.Fault.{Gives};
ghost use Rattle.m88_parse.specs.Inside.Slots.{ReadsSlot, unsigned_at, negated, signed_at, register_at, register_comma_at, two_registers_at, two_registers_comma_at, control_at, bit_at, mask_at, symbol_at, addend_at, fixup_at, value_at, any_name_at, alignment_at};

use crate::fault::{ParseFault, ParseKind};
use crate::names::{bit_named, condition_named, control_in, name_of, register_of, symbol_of};
use crate::parser::Parser;
use crate::token::What;
use crate::unit::Value;
use m88_base::{Fixup, Kind, Name, Reg};

/// The number modulo 2^32 whose sign is turned.
fn negated(n: u32) -> u32
    ensures { result ≡ negated n }
{
    0u32.wrapping_sub(n)
}

/// Whether a number is an alignment: 1, 2, 4 or 8.
fn is_alignment(n: u32) -> bool
    ensures { result ≡ (n == 1 || n == 2 || n == 4 || n == 8) }
{
    matches!(n, 1 | 2 | 4 | 8)
}

impl<'a> Parser<'a> {
    /// A number, 0 to `most`.
    #[tactic(auto, unfolding(crate::specs::Inside::Slots::unsigned_at))]
    pub fn number(&mut self, most: u32) -> Result<u32, ParseFault>
        ensures read { ReadsSlot self.old self.new result (unsigned_at most self.old) }
        ensures bound { IfOk result (λ n. n ≤ most) }
    {
        match self.first() {
            Some(What::Number(n)) if n <= most => {
                self.skip();
                Ok(n)
            }
            Some(What::Number(_)) => Err(self.fault(ParseKind::OutOfRange)),
            _ => Err(self.fault(ParseKind::Syntax)),
        }
    }

    /// A number from -`low` to `most`, modulo 2^32.
    #[tactic(auto, unfolding(crate::specs::Inside::Slots::signed_at, crate::specs::Inside::Slots::unsigned_at))]
    pub fn whole(&mut self, low: u32, most: u32) -> Result<u32, ParseFault>
        ensures { ReadsSlot self.old self.new result (signed_at low most self.old) }
    {
        if !self.is_next(b'-') {
            return self.number(most);
        }
        let below = self.fault(ParseKind::OutOfRange);
        self.skip();
        match self.first() {
            Some(What::Number(n)) if n <= low => {
                self.skip();
                Ok(negated(n))
            }
            Some(What::Number(_)) => Err(below),
            _ => Err(self.fault(ParseKind::Syntax)),
        }
    }

    /// The number of a general register.
    #[tactic(auto, unfolding(crate::specs::Inside::Slots::register_at))]
    pub fn register(&mut self) -> Result<Reg, ParseFault>
        ensures { Gives (λ r. (r, self.new)) result (register_at self.old) }
    {
        let Some(What::Name(name)) = self.first() else {
            return Err(self.fault(ParseKind::Syntax));
        };
        match register_of(name).and_then(Reg::new) {
            Some(r) => {
                self.skip();
                Ok(r)
            }
            None => Err(self.fault(ParseKind::NoSuchName)),
        }
    }

    /// The number of a general register, and the comma behind it.
    #[tactic(auto, unfolding(crate::specs::Inside::Slots::register_comma_at))]
    pub fn register_comma(&mut self) -> Result<Reg, ParseFault>
        ensures { Gives (λ r. (r, self.new)) result (register_comma_at self.old) }
    {
        let r = self.register()?;
        self.mark(b',')?;
        Ok(r)
    }

    /// The numbers of two general registers with a comma between them.
    #[tactic(auto, unfolding(crate::specs::Inside::Slots::two_registers_at))]
    pub fn two_registers(&mut self) -> Result<(Reg, Reg), ParseFault>
        ensures { Gives (λ x. (x, self.new)) result (two_registers_at self.old) }
    {
        let d = self.register_comma()?;
        let s1 = self.register()?;
        Ok((d, s1))
    }

    /// The numbers of two general registers with a comma between them and one behind.
    #[tactic(auto, unfolding(crate::specs::Inside::Slots::two_registers_comma_at))]
    pub fn two_registers_comma(&mut self) -> Result<(Reg, Reg), ParseFault>
        ensures { Gives (λ x. (x, self.new)) result (two_registers_comma_at self.old) }
    {
        let d = self.register_comma()?;
        let s1 = self.register_comma()?;
        Ok((d, s1))
    }

    /// The number of a control register, of the floating-point unit where `float`.
    #[tactic(auto, unfolding(crate::specs::Inside::Slots::control_at))]
    pub fn control(&mut self, float: bool) -> Result<u8, ParseFault>
        ensures { Gives (λ n. (n, self.new)) result (control_at float self.old) }
    {
        let Some(What::Name(name)) = self.first() else {
            return Err(self.fault(ParseKind::Syntax));
        };
        match control_in(float, name) {
            Some(n) => {
                self.skip();
                Ok(n as u8)
            }
            None => Err(self.fault(ParseKind::NoSuchName)),
        }
    }

    /// The number of a bit.
    #[tactic(auto, unfolding(crate::specs::Inside::Slots::bit_at, crate::specs::Inside::Slots::unsigned_at))]
    pub fn bit(&mut self) -> Result<u8, ParseFault>
        ensures { Gives (λ n. (n, self.new)) result (bit_at self.old) }
    {
        let Some(What::Name(name)) = self.first() else {
            return Ok(self.number(31)? as u8);
        };
        match bit_named(name) {
            Some(n) => {
                self.skip();
                Ok(n as u8)
            }
            None => Err(self.fault(ParseKind::NoSuchName)),
        }
    }

    /// The mask of a condition.
    #[tactic(auto, unfolding(crate::specs::Inside::Slots::mask_at, crate::specs::Inside::Slots::unsigned_at))]
    pub fn mask(&mut self) -> Result<u8, ParseFault>
        ensures { Gives (λ n. (n, self.new)) result (mask_at self.old) }
    {
        let Some(What::Name(name)) = self.first() else {
            return Ok(self.number(15)? as u8);
        };
        match condition_named(name) {
            Some(n) => {
                self.skip();
                Ok(n as u8)
            }
            None => Err(self.fault(ParseKind::NoSuchName)),
        }
    }

    /// The name of a symbol with its column.
    #[tactic(auto, unfolding(crate::specs::Inside::Slots::symbol_at))]
    pub fn symbol(&mut self) -> Result<(Name, u32), ParseFault>
        ensures { ReadsSlot self.old self.new result (symbol_at self.old) }
    {
        let Some(What::Name(text)) = self.first() else {
            return Err(self.fault(ParseKind::Syntax));
        };
        match symbol_of(text) {
            Some(name) => {
                let col = self.place();
                self.skip();
                Ok((name, col))
            }
            None => Err(self.fault(ParseKind::Syntax)),
        }
    }

    /// Any name.
    #[tactic(auto, unfolding(crate::specs::Inside::Slots::any_name_at))]
    pub fn any_name(&mut self) -> Result<Name, ParseFault>
        ensures { Gives (λ x. (x, self.new)) result (any_name_at self.old) }
    {
        let Some(What::Name(text)) = self.first() else {
            return Err(self.fault(ParseKind::Syntax));
        };
        match name_of(text) {
            Some(name) => {
                self.skip();
                Ok(name)
            }
            None => Err(self.fault(ParseKind::Syntax)),
        }
    }

    /// What is added to a symbol, modulo 2^32.
    #[tactic(auto, unfolding(crate::specs::Inside::Slots::addend_at))]
    fn addend(&mut self) -> Result<u32, ParseFault>
        ensures value { Gives (λ n. (n, self.new)) result (addend_at self.old) }
        ensures not_longer { OnOk result (length self.new.rest ≤ length self.old.rest) }
    {
        const MOST: u32 = (1 << 31) - 1;
        if self.is_next(b'+') {
            self.skip();
            self.number(MOST)
        } else if self.is_next(b'-') {
            self.skip();
            Ok(negated(self.number(MOST)?))
        } else {
            Ok(0)
        }
    }

    /// A symbol with what is added to it.
    #[tactic(auto, unfolding(crate::specs::Inside::Slots::fixup_at))]
    pub fn fixup(&mut self, kind: Kind) -> Result<Fixup, ParseFault>
        ensures { ReadsSlot self.old self.new result (fixup_at kind self.old) }
    {
        let (symbol, col) = self.symbol()?;
        let addend = self.addend()?;
        Ok(Fixup {
            kind,
            symbol,
            addend,
            col,
        })
    }

    /// A number of 32 bits, or a symbol with what is added to it.
    // Called, it would have each value made in one place and copied to another before it is pushed.
    #[inline(always)]
    #[tactic(auto, unfolding(crate::specs::Inside::Slots::value_at, crate::specs::Inside::Slots::signed_at, crate::specs::Inside::Slots::unsigned_at))]
    pub fn value(&mut self, kind: Kind) -> Result<Value, ParseFault>
        ensures { ReadsSlot self.old self.new result (value_at kind self.old) }
    {
        match self.first() {
            Some(What::Name(_)) => Ok(Value::Symbol(self.fixup(kind)?)),
            Some(What::Number(n)) => {
                self.skip();
                Ok(Value::Number(n))
            }
            _ => Ok(Value::Number(self.whole(1 << 31, u32::MAX)?)),
        }
    }

    /// An alignment: 1, 2, 4 or 8.
    #[tactic(auto, unfolding(crate::specs::Inside::Slots::alignment_at))]
    pub fn alignment(&mut self) -> Result<u32, ParseFault>
        ensures { Gives (λ n. (n, self.new)) result (alignment_at self.old) }
    {
        match self.first() {
            Some(What::Number(n)) if is_alignment(n) => {
                self.skip();
                Ok(n)
            }
            Some(What::Number(_)) => Err(self.fault(ParseKind::OutOfRange)),
            _ => Err(self.fault(ParseKind::Syntax)),
        }
    }
}
