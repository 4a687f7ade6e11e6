//! Byte addresses, modulo 2^32 ("Instruction Set": load address; load and store instructions).

ghost use Rattle.std.specs.Prelude.{◌≡◌};
ghost use Rattle.m88_isa.specs.Address.{address, scale_of, word_address};

use crate::instr::LdaSize;

/// The address of the word that a byte lies in: its two low bits are cleared.
pub(crate) fn word_address(place: u32) -> u32
    ensures { result ≡ word_address place }
{
    place / 4 * 4
}

/// A base and a scaled index, modulo 2^32.
pub fn indexed_address(base: u32, index: u32, scale: u32) -> u32
    ensures { result ≡ address base index scale }
{
    base.wrapping_add(index.wrapping_mul(scale))
}

/// The bytes by which a load of an address scales its index.
pub(crate) fn scale_of(size: LdaSize) -> u32
    ensures { result ≡ scale_of size }
{
    match size {
        LdaSize::Double => 8,
        LdaSize::Word => 4,
        LdaSize::Half => 2,
    }
}
