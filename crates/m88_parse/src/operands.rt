//! Operands of several tokens, each from the place where it is wanted.
ghost use Rattle.std.specs.Prelude.{◌≡◌, ◌≤◌, IfOk};
ghost use Rattle.m88_parse.specs.Fault.{Gives};
ghost use Rattle.m88_parse.specs.Inside.Operands.{AreWordsWithin, IsReach, half, half_immediate, half_on, half_at, immediate_at, register_in, operand_at, bound_at, scaled_at, index_at, user_index_at, width_at, literal_at, field_at, distance_at, words_at, is_here_on, target_at};
ghost use Rattle.m88_parse.specs.Inside.State.{first, second};

use crate::fault::{ParseFault, ParseKind};
use crate::names::{half_named, is_here, register_of};
use crate::operand::{Bound, Field, Immediate, Index, Operand, Target};
use crate::parser::Parser;
use crate::token::What;
use crate::unit::Value;
use m88_base::{Kind, Reg};

/// The most that fits an immediate.
const SHORT: u32 = 0xFFFF;

/// The upper or the lower 16 bits of a number.
fn half(kind: Kind, n: u32) -> u16
    ensures { result ≡ half kind n }
{
    if kind == Kind::Hi16 {
        (n / 0x10000) as u16
    } else {
        (n % 0x10000) as u16
    }
}

/// Half of a number, or 0 with the fixup that waits for half of a symbol.
fn half_immediate(kind: Kind, value: Value) -> Immediate
    ensures { result ≡ half_immediate kind value }
{
    match value {
        Value::Number(n) => Immediate {
            imm: half(kind, n),
            fixup: None,
        },
        Value::Symbol(fixup) => Immediate {
            imm: 0,
            fixup: Some(fixup),
        },
    }
}

impl<'a> Parser<'a> {
    /// Which half the next two tokens begin, if they are hi16 or lo16 and an opening parenthesis.
    fn half_next(&self) -> Option<Kind>
        ensures { result ≡ half_on (first self.now) (second self.now) }
    {
        match (self.first(), self.second()) {
            (Some(What::Name(text)), Some(What::Mark(b'('))) => half_named(text),
            _ => None,
        }
    }

    /// hi16 or lo16 of a value in parentheses; the next token is the name.
    #[tactic(auto, unfolding(crate::specs::Inside::Operands::half_at))]
    fn half(&mut self, kind: Kind) -> Result<Immediate, ParseFault>
        ensures { Gives (λ x. (x, self.new)) result (half_at kind self.old) }
    {
        self.skip();
        self.mark(b'(')?;
        let value = self.value(kind)?;
        self.mark(b')')?;
        Ok(half_immediate(kind, value))
    }

    /// A number of 16 bits, or half of a value.
    #[tactic(auto, unfolding(crate::specs::Inside::Operands::immediate_at))]
    pub fn immediate(&mut self) -> Result<Immediate, ParseFault>
        ensures { Gives (λ x. (x, self.new)) result (immediate_at self.old) }
    {
        if let Some(kind) = self.half_next() {
            return self.half(kind);
        }
        match self.first() {
            Some(What::Number(n)) if n <= SHORT => {
                self.skip();
                Ok(Immediate {
                    imm: n as u16,
                    fixup: None,
                })
            }
            Some(What::Number(_)) => Err(self.fault(ParseKind::OutOfRange)),
            Some(What::Name(_)) => Err(self.fault(ParseKind::NoSuchName)),
            _ => Err(self.fault(ParseKind::Syntax)),
        }
    }

    /// The register that the next token names, if it names one.
    fn register_next(&self) -> Option<Reg>
        ensures { result ≡ register_in (first self.now) }
    {
        match self.first() {
            Some(What::Name(text)) => register_of(text).and_then(Reg::new),
            _ => None,
        }
    }

    /// A register, a number of 16 bits, or half of a value.
    #[tactic(auto, unfolding(crate::specs::Inside::Operands::operand_at))]
    pub fn operand(&mut self) -> Result<Operand, ParseFault>
        ensures { Gives (λ x. (x, self.new)) result (operand_at self.old) }
    {
        if let Some(r) = self.register_next() {
            self.skip();
            return Ok(Operand::Register(r));
        }
        Ok(Operand::Immediate(self.immediate()?))
    }

    /// A register, or a number of 16 bits.
    #[tactic(auto, unfolding(crate::specs::Inside::Operands::bound_at))]
    pub fn bound(&mut self) -> Result<Bound, ParseFault>
        ensures { Gives (λ x. (x, self.new)) result (bound_at self.old) }
    {
        match self.first() {
            Some(What::Name(_)) => Ok(Bound::Register(self.register()?)),
            Some(What::Number(n)) if n <= SHORT => {
                self.skip();
                Ok(Bound::Number(n as u16))
            }
            Some(What::Number(_)) => Err(self.fault(ParseKind::OutOfRange)),
            _ => Err(self.fault(ParseKind::Syntax)),
        }
    }

    /// A scaled register, in brackets.
    #[tactic(auto, unfolding(crate::specs::Inside::Operands::scaled_at))]
    pub fn scaled(&mut self) -> Result<Reg, ParseFault>
        ensures { Gives (λ r. (r, self.new)) result (scaled_at self.old) }
    {
        self.mark(b'[')?;
        let r = self.register()?;
        self.mark(b']')?;
        Ok(r)
    }

    /// What stands behind the base register of a memory operand.
    #[tactic(auto, unfolding(crate::specs::Inside::Operands::index_at))]
    pub fn index(&mut self) -> Result<Index, ParseFault>
        ensures { Gives (λ x. (x, self.new)) result (index_at self.old) }
    {
        if self.is_next(b'[') {
            return Ok(Index::Scaled(self.scaled()?));
        }
        self.mark(b',')?;
        Ok(Index::Offset(self.operand()?))
    }

    /// The register behind the base register of an access by `.usr`, and whether it is scaled.
    #[tactic(auto, unfolding(crate::specs::Inside::Operands::user_index_at))]
    pub fn user_index(&mut self) -> Result<(Reg, bool), ParseFault>
        ensures { Gives (λ x. (x, self.new)) result (user_index_at self.old) }
    {
        if self.is_next(b'[') {
            return Ok((self.scaled()?, true));
        }
        self.mark(b',')?;
        Ok((self.register()?, false))
    }

    /// A width, 0 to `most`; none is 0.
    #[tactic(auto, unfolding(crate::specs::Inside::Operands::width_at))]
    fn width(&mut self, most: u32) -> Result<u32, ParseFault>
        ensures value { Gives (λ n. (n, self.new)) result (width_at most self.old) }
        ensures bound { IfOk result (λ n. n ≤ most) }
    {
        if self.is_next(b'<') {
            Ok(0)
        } else {
            self.number(most)
        }
    }

    /// A width, 0 to `most`, and an offset.
    #[tactic(auto, unfolding(crate::specs::Inside::Operands::literal_at))]
    fn literal(&mut self, most: u32) -> Result<Field, ParseFault>
        requires { most ≤ 31 }
        ensures { Gives (λ x. (x, self.new)) result (literal_at most self.old) }
    {
        let width = self.width(most)? as u8;
        self.mark(b'<')?;
        let offset = self.number(31)? as u8;
        self.mark(b'>')?;
        Ok(Field::Literal { width, offset })
    }

    /// A bit field with a width of 0 to `most`.
    #[tactic(auto, unfolding(crate::specs::Inside::Operands::field_at))]
    pub fn field(&mut self, most: u32) -> Result<Field, ParseFault>
        requires { most ≤ 31 }
        ensures { Gives (λ x. (x, self.new)) result (field_at most self.old) }
    {
        if let Some(What::Name(_)) = self.first() {
            Ok(Field::Register(self.register()?))
        } else {
            self.literal(most)
        }
    }

    /// A distance in bytes, as words, `most` at the most.
    #[tactic(auto, unfolding(crate::specs::Inside::Operands::distance_at))]
    fn distance(&mut self, most: u32) -> Result<u32, ParseFault>
        ensures value { Gives (λ n. (n, self.new)) result (distance_at most self.old) }
        ensures bound { IfOk result (λ n. n ≤ most) }
    {
        match self.first() {
            Some(What::Number(n)) if n % 4 == 0 && n / 4 <= most => {
                self.skip();
                Ok(n / 4)
            }
            Some(What::Number(_)) => Err(self.fault(ParseKind::OutOfRange)),
            _ => Err(self.fault(ParseKind::Syntax)),
        }
    }

    /// Words forward or back behind the `.` of a target, in a sign and the bits below `limit`.
    #[tactic(auto, unfolding(crate::specs::Inside::Operands::words_at))]
    fn words(&mut self, limit: u32) -> Result<i32, ParseFault>
        requires { IsReach limit }
        ensures value { Gives (λ n. (n, self.new)) result (words_at limit self.old) }
        ensures fits { IfOk result (AreWordsWithin limit) }
    {
        if self.is_next(b'+') {
            self.skip();
            Ok(self.distance(limit - 1)? as i32)
        } else if self.is_next(b'-') {
            self.skip();
            Ok(-(self.distance(limit)? as i32))
        } else {
            Ok(0)
        }
    }

    /// Whether the next token is `.`, the place of the statement.
    fn is_here(&self) -> bool
        ensures { result ≡ is_here_on (first self.now) }
    {
        match self.first() {
            Some(What::Name(text)) => is_here(text),
            _ => false,
        }
    }

    /// Where a branch goes; a distance fits a sign and the bits below `limit`.
    #[tactic(auto, unfolding(crate::specs::Inside::Operands::target_at))]
    pub fn target(&mut self, kind: Kind, limit: u32) -> Result<Target, ParseFault>
        requires { IsReach limit }
        ensures value { Gives (λ x. (x, self.new)) result (target_at kind limit self.old) }
        ensures fits { IfOk result (λ x. AreWordsWithin limit x.words) }
    {
        if self.is_here() {
            self.skip();
            Ok(Target {
                words: self.words(limit)?,
                fixup: None,
            })
        } else {
            Ok(Target {
                words: 0,
                fixup: Some(self.fixup(kind)?),
            })
        }
    }
}
