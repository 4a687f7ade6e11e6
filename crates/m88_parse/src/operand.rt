//! Operands of instructions, as they are read.
use m88_base::{Fixup, Reg};

/// A 16-bit immediate, or 0 and the fixup that puts half of a symbol's value there.
#[derive(Drop)]
pub(crate) struct Immediate {
    pub imm: u16,
    pub fixup: Option<Fixup>,
}

/// The last operand of an instruction that takes an immediate or a register.
#[derive(Drop)]
pub(crate) enum Operand {
    Register(Reg),
    Immediate(Immediate),
}

/// The bound of `tbnd`.
#[derive(Clone, Copy)]
pub(crate) enum Bound {
    Register(Reg),
    Number(u16),
}

/// What is added to the base register of a memory operand: a scaled register in brackets, or an
/// operand behind a comma.
#[derive(Drop)]
pub(crate) enum Index {
    Scaled(Reg),
    Offset(Operand),
}

/// A bit field: a literal width and offset, or a register.
#[derive(Clone, Copy)]
pub(crate) enum Field {
    Literal { width: u8, offset: u8 },
    Register(Reg),
}

/// Where a branch goes: a count of words, or 0 and the fixup of a symbol.
#[derive(Drop)]
pub(crate) struct Target {
    pub words: i32,
    pub fixup: Option<Fixup>,
}
