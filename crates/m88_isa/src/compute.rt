//! Logic and arithmetic on words ("Instruction Set": logical and integer arithmetic instructions).

ghost use Rattle.std.specs.Prelude.{◌≡◌, ◌≤◌};
ghost use Rattle.m88_isa.specs.Compute.{
  comparison,
  exact_signed_sum,
  fits_signed,
  immediate,
  registers,
  signed_quotient,
  signed_sum,
  unsigned_quotient,
  unsigned_sum,
  weight_if,
};

use crate::instr::{ImmOp, RegOp};
use crate::planned::Computed;
use crate::vector::{BAD_DIVISION, OVERFLOW};

/// What an instruction with an immediate computes of the word in S1.
pub(crate) fn immediate(op: ImmOp, carry: bool, s: u32, imm: u16) -> Computed
    ensures { result ≡ immediate op carry s imm }
{
    let t = imm as u32;
    match op {
        ImmOp::And => Computed::Gives {
            value: s & (0xFFFF_0000 + t),
            carry,
        },
        ImmOp::AndU => Computed::Gives {
            value: s & ((t << 16) + 0xFFFF),
            carry,
        },
        ImmOp::Mask => Computed::Gives {
            value: s & t,
            carry,
        },
        ImmOp::MaskU => Computed::Gives {
            value: s & (t << 16),
            carry,
        },
        ImmOp::Xor => Computed::Gives {
            value: s ^ t,
            carry,
        },
        ImmOp::XorU => Computed::Gives {
            value: s ^ (t << 16),
            carry,
        },
        ImmOp::Or => Computed::Gives {
            value: s | t,
            carry,
        },
        ImmOp::OrU => Computed::Gives {
            value: s | (t << 16),
            carry,
        },
        ImmOp::Addu => unsigned_sum(false, false, carry, s, t),
        ImmOp::Subu => unsigned_sum(false, true, carry, s, !t),
        ImmOp::Divu => unsigned_quotient(carry, s, t),
        ImmOp::Mul => Computed::Gives {
            value: s.wrapping_mul(t),
            carry,
        },
        ImmOp::Add => signed_sum(false, false, carry, s, t),
        ImmOp::Sub => signed_sum(false, true, carry, s, !t),
        ImmOp::Div => signed_quotient(carry, s, t),
        ImmOp::Cmp => Computed::Gives {
            value: comparison(s, t),
            carry,
        },
    }
}

/// What an instruction on three registers computes of the words in S1 and S2.
pub(crate) fn registers(op: RegOp, carry: bool, s: u32, t: u32) -> Computed
    ensures { result ≡ registers op carry s t }
{
    match op {
        RegOp::And => Computed::Gives {
            value: s & t,
            carry,
        },
        RegOp::AndC => Computed::Gives {
            value: s & !t,
            carry,
        },
        RegOp::Xor => Computed::Gives {
            value: s ^ t,
            carry,
        },
        RegOp::XorC => Computed::Gives {
            value: s ^ !t,
            carry,
        },
        RegOp::Or => Computed::Gives {
            value: s | t,
            carry,
        },
        RegOp::OrC => Computed::Gives {
            value: s | !t,
            carry,
        },
        RegOp::Addu => unsigned_sum(false, false, carry, s, t),
        RegOp::Subu => unsigned_sum(false, true, carry, s, !t),
        RegOp::Divu => unsigned_quotient(carry, s, t),
        RegOp::Mul => Computed::Gives {
            value: s.wrapping_mul(t),
            carry,
        },
        RegOp::Add => signed_sum(false, false, carry, s, t),
        RegOp::Sub => signed_sum(false, true, carry, s, !t),
        RegOp::Div => signed_quotient(carry, s, t),
        RegOp::Cmp => Computed::Gives {
            value: comparison(s, t),
            carry,
        },
        RegOp::AdduCo => unsigned_sum(true, false, carry, s, t),
        RegOp::AdduCi => unsigned_sum(false, carry, carry, s, t),
        RegOp::AdduCio => unsigned_sum(true, carry, carry, s, t),
        RegOp::SubuCo => unsigned_sum(true, true, carry, s, !t),
        RegOp::SubuCi => unsigned_sum(false, carry, carry, s, !t),
        RegOp::SubuCio => unsigned_sum(true, carry, carry, s, !t),
        RegOp::AddCo => signed_sum(true, false, carry, s, t),
        RegOp::AddCi => signed_sum(false, carry, carry, s, t),
        RegOp::AddCio => signed_sum(true, carry, carry, s, t),
        RegOp::SubCo => signed_sum(true, true, carry, s, !t),
        RegOp::SubCi => signed_sum(false, carry, carry, s, !t),
        RegOp::SubCio => signed_sum(true, carry, carry, s, !t),
    }
}

/// The low word of s + t and a carry in; with `carry_out` the carry is that out of bit 31.
fn unsigned_sum(carry_out: bool, carry_in: bool, carry: bool, s: u32, t: u32) -> Computed
    ensures { result ≡ unsigned_sum carry_out carry_in carry s t }
{
    let sum = s as u64 + t as u64 + weight_if(carry_in, 1) as u64;
    let carry = if carry_out { sum >= 1 << 32 } else { carry };
    Computed::Gives {
        value: (sum % (1 << 32)) as u32,
        carry,
    }
}

/// The low word of s + t and a carry in, or an overflow where the exact signed sum doesn't fit a word; the carry out is
/// set as by `unsigned_sum`.
fn signed_sum(carry_out: bool, carry_in: bool, carry: bool, s: u32, t: u32) -> Computed
    ensures { result ≡ signed_sum carry_out carry_in carry s t }
{
    if fits_signed(exact_signed_sum(carry_in, s, t)) {
        unsigned_sum(carry_out, carry_in, carry, s, t)
    } else {
        Computed::Raises(OVERFLOW)
    }
}

/// s + t and a carry in, both words read as signed.
fn exact_signed_sum(carry_in: bool, s: u32, t: u32) -> i64
    ensures { result ≡ exact_signed_sum carry_in s t }
{
    s.cast_signed() as i64 + t.cast_signed() as i64 + weight_if(carry_in, 1) as i64
}

/// Whether a number is in the range of a signed word.
fn fits_signed(exact: i64) -> bool
    ensures { result ≡ fits_signed exact }
{
    exact >= -(1 << 31) && exact < 1 << 31
}

/// The unsigned quotient of s by t.
fn unsigned_quotient(carry: bool, s: u32, t: u32) -> Computed
    ensures { result ≡ unsigned_quotient carry s t }
{
    if t == 0 {
        Computed::Raises(BAD_DIVISION)
    } else {
        Computed::Gives {
            value: s / t,
            carry,
        }
    }
}

/// The quotient of s by t, neither of them negative.
fn signed_quotient(carry: bool, s: u32, t: u32) -> Computed
    ensures { result ≡ signed_quotient carry s t }
{
    if t == 0 || s >= 1 << 31 || t >= 1 << 31 {
        Computed::Raises(BAD_DIVISION)
    } else {
        Computed::Gives {
            value: s / t,
            carry,
        }
    }
}

/// The ten bits that a comparison sets, bit 2 to bit 11.
fn comparison(s: u32, t: u32) -> u32
    ensures { result ≡ comparison s t }
{
    let (a, b) = (s.cast_signed(), t.cast_signed());
    let equality = weight_if(s == t, 1 << 2) + weight_if(s != t, 1 << 3);
    let signed = weight_if(a > b, 1 << 4)
        + weight_if(a <= b, 1 << 5)
        + weight_if(a < b, 1 << 6)
        + weight_if(a >= b, 1 << 7);
    let unsigned = weight_if(s > t, 1 << 8)
        + weight_if(s <= t, 1 << 9)
        + weight_if(s < t, 1 << 10)
        + weight_if(s >= t, 1 << 11);
    equality + signed + unsigned
}

/// A weight where a flag is set, else 0.
pub(crate) fn weight_if(there: bool, weight: u32) -> u32
    ensures value { result ≡ weight_if there weight }
    ensures bound { result ≤ weight }
{
    if there { weight } else { 0 }
}
