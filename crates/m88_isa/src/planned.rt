//! What one instruction does, as `plan` and `outline` answer it, and what goes into it.

use crate::instr::MemOp;
use m88_base::Reg;

/// What one instruction does.
#[derive(Clone, Copy, PartialEq, Eq, Debug)]
pub enum Plan {
    /// The instruction changes registers, carry, memory or the flow of the program as the effect says.
    Go(Effect),
    /// The instruction raises an exception of this vector and changes nothing.
    Raise(u16),
    /// The instruction is a taken trap with this vector, 128 to 511.
    Trap(u16),
}

/// The changes that an instruction makes.
#[derive(Clone, Copy, PartialEq, Eq, Debug)]
pub struct Effect {
    /// The register that is written, never r0, and its new value. A load writes its register later,
    /// when its access is answered.
    pub reg: Option<(Reg, u32)>,
    /// The carry afterwards.
    pub carry: bool,
    /// The accesses to data memory, in order.
    pub accesses: Accesses,
    /// The byte addresses of the two instructions that follow.
    pub after: (u32, u32),
    /// Whether an instruction that was fetched already is passed over: a taken branch without delay slot.
    pub bubble: bool,
}

/// Up to two accesses, in order; those past `count` are all zero.
#[derive(Clone, Copy, PartialEq, Eq, Debug)]
pub struct Accesses {
    pub count: u8,
    pub first: Access,
    pub second: Access,
}

/// One access to a word of data memory, as the data unit's registers describe it.
#[derive(Clone, Copy, PartialEq, Eq, Default, Debug)]
pub struct Access {
    /// Whether it is a store.
    pub write: bool,
    /// The byte address of the word, a multiple of 4.
    pub addr: u32,
    /// The bytes of the word that are touched: bit 3 is the byte at offset 0, which is the highest.
    pub en: u8,
    /// The register that a load writes, and r0 for a store.
    pub reg: Reg,
    /// Whether the datum of a load is extended with its sign.
    pub signed: bool,
    /// Whether it is the first half of a double word.
    pub doub1: bool,
    /// Whether it is one half of an exchange, between which the bus is locked.
    pub lock: bool,
    /// The whole register whose low bytes a store writes, and 0 for a load.
    pub value: u32,
}

/// What one instruction does, in outline: of its plan what isn't read off the registers, the carry and the address that
/// follows. Two outlines may stand for one plan: a jump to the next two instructions is what going on is.
#[derive(Clone, Copy, PartialEq, Eq, Debug)]
pub enum Outline {
    /// The following instruction is next. A register, never r0, is written at once with a new value, and this is the
    /// carry afterwards.
    Next {
        reg: Option<(Reg, u32)>,
        carry: bool,
    },
    /// The program goes on at the byte addresses of two instructions; a fetched one may be passed over, and a register,
    /// never r0, be written at once. The carry stays.
    Flow {
        reg: Option<(Reg, u32)>,
        after: (u32, u32),
        bubble: bool,
    },
    /// The accesses of a memory mnemonic with D at a byte address, a multiple of the datum's size. The following
    /// instruction is next, and the carry stays.
    Memory {
        op: MemOp,
        d: Reg,
        place: u32,
    },
    /// The instruction raises an exception of this vector and changes nothing.
    Raise(u16),
    /// The instruction is a taken trap with this vector, 128 to 511.
    Trap(u16),
}

/// What an arithmetic instruction computes: a word and the carry afterwards, or the vector that it raises.
#[derive(Clone, Copy)]
pub enum Computed {
    Gives { value: u32, carry: bool },
    Raises(u16),
}

/// What an instruction goes by: registers in the places of S1, S2 and D and after D, the carry, the bit MXM of PSR, and
/// the byte addresses of the instruction and of the one that follows. A register that isn't there, or wasn't read yet,
/// counts as 0. The registers of D are the definitions' alone: code reads what is stored where it makes the accesses.
#[derive(Clone, Copy)]
pub struct Inputs {
    pub s1: u32,
    pub s2: u32,
    pub d: u32,
    pub after_d: u32,
    pub carry: bool,
    pub mxm: bool,
    pub pc: u32,
    pub next: u32,
}
