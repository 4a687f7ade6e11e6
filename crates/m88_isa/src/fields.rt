//! Bit fields and the highest bit ("Instruction Set": bit-field instructions).

ghost use Rattle.std.specs.Prelude.{◌≡◌, ◌≤◌, ◌<◌, ◌%◌, ◌^◌};
ghost use Rattle.m88_isa.specs.Fields.{
  bit_field,
  extract,
  extract_signed,
  find_bit,
  highest_one,
  offset_in,
  ones,
  sign_extend,
  width_in,
  width_of,
};

use crate::instr::BitOp;

/// What an instruction on a field of `width` bits, 1 to 32, at `offset` computes of the word in S1.
pub(crate) fn bit_field(op: BitOp, s: u32, width: u32, offset: u32) -> u32
    requires least { 1 ≤ width }
    requires most { width ≤ 32 }
    requires within { offset < 32 }
    ensures { result ≡ bit_field op s width offset }
{
    match op {
        BitOp::Clr => s & !ones(width, offset),
        BitOp::Set => s | ones(width, offset),
        BitOp::Ext => extract_signed(s, width, offset),
        BitOp::Extu => extract(s, width, offset),
        BitOp::Mak => low_bits(s, width) << offset,
        BitOp::Rot => s.rotate_right(offset),
    }
}

/// The width that a five-bit field gives.
pub(crate) fn width_of(n: u32) -> u32
    requires { n < 32 }
    ensures value { result ≡ width_of n }
    ensures least { 1 ≤ result }
    ensures most { result ≤ 32 }
{
    if n == 0 { 32 } else { n }
}

/// The width that a register gives.
pub(crate) fn width_in(t: u32) -> u32
    ensures value { result ≡ width_in t }
    ensures least { 1 ≤ result }
    ensures most { result ≤ 32 }
{
    width_of(t >> 5 & 31)
}

/// The offset that a register gives.
pub(crate) fn offset_in(t: u32) -> u32
    ensures value { result ≡ offset_in t }
    ensures within { result < 32 }
{
    t & 31
}

/// The word whose ones are the bits of a field.
fn ones(width: u32, offset: u32) -> u32
    requires most { width ≤ 32 }
    requires within { offset < 32 }
    ensures { result ≡ ones width offset }
{
    if width == 32 {
        u32::MAX << offset
    } else {
        ((1 << width) - 1) << offset
    }
}

/// The low bits of a word.
fn low_bits(s: u32, width: u32) -> u32
    requires { width ≤ 32 }
    ensures { result ≡ s % 2 ^ width }
{
    if width == 32 { s } else { s % (1 << width) }
}

/// A field brought to the low end.
fn extract(s: u32, width: u32, offset: u32) -> u32
    requires most { width ≤ 32 }
    requires within { offset < 32 }
    ensures { result ≡ extract s width offset }
{
    if offset + width >= 32 {
        s >> offset
    } else {
        low_bits(s >> offset, width)
    }
}

/// A field brought to the low end with its sign.
fn extract_signed(s: u32, width: u32, offset: u32) -> u32
    requires least { 1 ≤ width }
    requires most { width ≤ 32 }
    requires within { offset < 32 }
    ensures { result ≡ extract_signed s width offset }
{
    if offset + width >= 32 {
        (s.cast_signed() >> offset).cast_unsigned()
    } else {
        sign_extend(low_bits(s >> offset, width), width)
    }
}

/// A field of fewer than 32 bits with its highest bit carried on to bit 31.
fn sign_extend(field: u32, width: u32) -> u32
    requires least { 1 ≤ width }
    requires most { width < 32 }
    requires held { field < 2 ^ width }
    ensures { result ≡ sign_extend field width }
{
    if field >= 1 << (width - 1) {
        field + (u32::MAX << width)
    } else {
        field
    }
}

/// The number of the highest bit that is set (`ones`) or clear, or 32.
pub(crate) fn find_bit(ones: bool, n: u32) -> u32
    ensures { result ≡ find_bit ones n }
{
    if ones {
        highest_one(n)
    } else {
        highest_one(!n)
    }
}

/// The number of the highest bit that is set, or 32.
fn highest_one(n: u32) -> u32
    ensures { result ≡ highest_one n }
{
    if n == 0 { 32 } else { 31 - n.leading_zeros() }
}
