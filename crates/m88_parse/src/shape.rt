//! The operand form of each mnemonic.
ghost use Rattle.std.specs.Prelude.{◌≡◌};
ghost use Rattle.m88_parse.specs.Inside.Shapes.{shape_of};

use m88_isa::{BitOp, ImmOp, LdaSize, MemOp, Mnemonic, RegOp};

/// The operand form of a mnemonic, with what it says of the instruction ("Instruction Set": the
/// assembler syntax of each instruction).
#[derive(Clone, Copy, PartialEq, Eq, Debug)]
pub(crate) enum Shape {
    /// rD,rS1 and an immediate or a register.
    Either(ImmOp, RegOp),
    /// rD,rS1 and an immediate.
    Immediate(ImmOp),
    /// rD,rS1,rS2
    Registers(RegOp),
    /// rD,rS1 and an immediate, a register, or a scaled register.
    Memory(MemOp),
    /// rD,rS1 and a register or a scaled register, in the user's address space.
    UserMemory(MemOp),
    /// rD,rS1[rS2]
    Address(LdaSize),
    /// rD,rS1 and a width and an offset, or a register.
    Bits(BitOp),
    /// rD,rS2
    Find { ones: bool },
    /// A target.
    Branch { link: bool, delayed: bool },
    /// A bit, rS1 and a target.
    BranchBit { set: bool, delayed: bool },
    /// A condition, rS1 and a target.
    BranchCond { delayed: bool },
    /// rS2
    Jump { link: bool, delayed: bool },
    /// A bit, rS1 and a vector.
    TrapBit { set: bool },
    /// A condition, rS1 and a vector.
    TrapCond,
    /// rS1 and a number or a register.
    Bounds,
    /// Nothing.
    Return,
    /// rD and a control register.
    Ldcr { float: bool },
    /// rS1 and a control register.
    Stcr { float: bool },
    /// rD,rS1 and a control register.
    Xcr { float: bool },
}

/// The operand form of each mnemonic, in the order of the variants.
const SHAPES: [Shape; 91] = [
    Shape::Memory(MemOp::XmemBu),
    Shape::UserMemory(MemOp::XmemBu),
    Shape::Memory(MemOp::Xmem),
    Shape::UserMemory(MemOp::Xmem),
    Shape::Memory(MemOp::LdHu),
    Shape::UserMemory(MemOp::LdHu),
    Shape::Memory(MemOp::LdBu),
    Shape::UserMemory(MemOp::LdBu),
    Shape::Memory(MemOp::LdD),
    Shape::UserMemory(MemOp::LdD),
    Shape::Memory(MemOp::Ld),
    Shape::UserMemory(MemOp::Ld),
    Shape::Memory(MemOp::LdH),
    Shape::UserMemory(MemOp::LdH),
    Shape::Memory(MemOp::LdB),
    Shape::UserMemory(MemOp::LdB),
    Shape::Memory(MemOp::StD),
    Shape::UserMemory(MemOp::StD),
    Shape::Memory(MemOp::St),
    Shape::UserMemory(MemOp::St),
    Shape::Memory(MemOp::StH),
    Shape::UserMemory(MemOp::StH),
    Shape::Memory(MemOp::StB),
    Shape::UserMemory(MemOp::StB),
    Shape::Address(LdaSize::Double),
    Shape::Address(LdaSize::Word),
    Shape::Address(LdaSize::Half),
    Shape::Either(ImmOp::And, RegOp::And),
    Shape::Registers(RegOp::AndC),
    Shape::Immediate(ImmOp::AndU),
    Shape::Immediate(ImmOp::Mask),
    Shape::Immediate(ImmOp::MaskU),
    Shape::Either(ImmOp::Xor, RegOp::Xor),
    Shape::Registers(RegOp::XorC),
    Shape::Immediate(ImmOp::XorU),
    Shape::Either(ImmOp::Or, RegOp::Or),
    Shape::Registers(RegOp::OrC),
    Shape::Immediate(ImmOp::OrU),
    Shape::Either(ImmOp::Addu, RegOp::Addu),
    Shape::Registers(RegOp::AdduCo),
    Shape::Registers(RegOp::AdduCi),
    Shape::Registers(RegOp::AdduCio),
    Shape::Either(ImmOp::Subu, RegOp::Subu),
    Shape::Registers(RegOp::SubuCo),
    Shape::Registers(RegOp::SubuCi),
    Shape::Registers(RegOp::SubuCio),
    Shape::Either(ImmOp::Divu, RegOp::Divu),
    Shape::Either(ImmOp::Mul, RegOp::Mul),
    Shape::Either(ImmOp::Add, RegOp::Add),
    Shape::Registers(RegOp::AddCo),
    Shape::Registers(RegOp::AddCi),
    Shape::Registers(RegOp::AddCio),
    Shape::Either(ImmOp::Sub, RegOp::Sub),
    Shape::Registers(RegOp::SubCo),
    Shape::Registers(RegOp::SubCi),
    Shape::Registers(RegOp::SubCio),
    Shape::Either(ImmOp::Div, RegOp::Div),
    Shape::Either(ImmOp::Cmp, RegOp::Cmp),
    Shape::Bits(BitOp::Clr),
    Shape::Bits(BitOp::Set),
    Shape::Bits(BitOp::Ext),
    Shape::Bits(BitOp::Extu),
    Shape::Bits(BitOp::Mak),
    Shape::Bits(BitOp::Rot),
    Shape::Find { ones: true },
    Shape::Find { ones: false },
    Shape::Branch {
        link: false,
        delayed: false,
    },
    Shape::Branch {
        link: false,
        delayed: true,
    },
    Shape::Branch {
        link: true,
        delayed: false,
    },
    Shape::Branch {
        link: true,
        delayed: true,
    },
    Shape::BranchBit {
        set: false,
        delayed: false,
    },
    Shape::BranchBit {
        set: false,
        delayed: true,
    },
    Shape::BranchBit {
        set: true,
        delayed: false,
    },
    Shape::BranchBit {
        set: true,
        delayed: true,
    },
    Shape::BranchCond { delayed: false },
    Shape::BranchCond { delayed: true },
    Shape::Jump {
        link: false,
        delayed: false,
    },
    Shape::Jump {
        link: false,
        delayed: true,
    },
    Shape::Jump {
        link: true,
        delayed: false,
    },
    Shape::Jump {
        link: true,
        delayed: true,
    },
    Shape::TrapBit { set: false },
    Shape::TrapBit { set: true },
    Shape::TrapCond,
    Shape::Bounds,
    Shape::Return,
    Shape::Ldcr { float: false },
    Shape::Stcr { float: false },
    Shape::Xcr { float: false },
    Shape::Ldcr { float: true },
    Shape::Stcr { float: true },
    Shape::Xcr { float: true },
];

/// The operand form of a mnemonic.
#[tactic(auto, unfolding(crate::specs::Inside::Shapes::shape_of))]
pub(crate) fn shape_of(mnemonic: Mnemonic) -> Shape
    ensures { result ≡ shape_of mnemonic }
{
    SHAPES[mnemonic as usize]
}
