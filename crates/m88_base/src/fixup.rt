//! Fields of words that wait for the value of a symbol.

use crate::name::Name;

/// Which field of a word a symbol's value goes into.
#[derive(Clone, Copy, PartialEq, Eq, Debug)]
pub enum Kind {
    /// The upper 16 bits, in the 16 low bits of an instruction.
    Hi16,
    /// The lower 16 bits, in the 16 low bits of an instruction.
    Lo16,
    /// The distance in words from the instruction, in its 26 low bits.
    Pc26,
    /// The distance in words from the instruction, in its 16 low bits.
    Pc16,
    /// All 32 bits of a word.
    Abs32,
}

/// A field that takes the value of a symbol plus a number.
#[derive(Clone, Copy, PartialEq, Eq, Debug)]
pub struct Fixup {
    /// The field.
    pub kind: Kind,
    /// The symbol.
    pub symbol: Name,
    /// What is added to the symbol's value, modulo 2^32.
    pub addend: u32,
    /// The column of the symbol in its line, from 1.
    pub col: u32,
}
