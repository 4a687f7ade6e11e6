//! The instructions: a variant for each form of a word, and the ranges of their fields ("Instruction Set").

ghost use Rattle.std.specs.Prelude.{◌↔◌, IsTrue};
ghost use Rattle.m88_isa.specs.Instr.{IsValid, IsWidth};

use m88_base::Reg;

/// The mnemonics with a 16-bit immediate that work on registers alone ("Instruction Set": logical and
/// integer arithmetic instructions). `U` is `.u`, the upper half of the register.
#[derive(Clone, Copy, PartialEq, Eq, Debug)]
pub enum ImmOp {
    And,
    AndU,
    Mask,
    MaskU,
    Xor,
    XorU,
    Or,
    OrU,
    Addu,
    Subu,
    Divu,
    Mul,
    Add,
    Sub,
    Div,
    Cmp,
}

/// The mnemonics that read or write data memory ("Instruction Set": load, store and exchange
/// instructions). `D` is a double word, `H` a half word, `B` a byte, a further `U` reads unsigned.
#[derive(Clone, Copy, PartialEq, Eq, Debug)]
pub enum MemOp {
    XmemBu,
    Xmem,
    LdHu,
    LdBu,
    LdD,
    Ld,
    LdH,
    LdB,
    StD,
    St,
    StH,
    StB,
}

/// The mnemonics on three registers ("Instruction Set": logical and integer arithmetic instructions).
/// `C` of the logic group is `.c`, the complement of the second source; `Co`, `Ci` and `Cio` are the
/// carry out, in and both.
#[derive(Clone, Copy, PartialEq, Eq, Debug)]
pub enum RegOp {
    And,
    AndC,
    Xor,
    XorC,
    Or,
    OrC,
    Addu,
    Subu,
    Divu,
    Mul,
    Add,
    Sub,
    Div,
    Cmp,
    AdduCo,
    AdduCi,
    AdduCio,
    SubuCo,
    SubuCi,
    SubuCio,
    AddCo,
    AddCi,
    AddCio,
    SubCo,
    SubCi,
    SubCio,
}

/// The scale of a load of an address: `lda.d`, `lda` and `lda.h` ("Instruction Set": load address).
#[derive(Clone, Copy, PartialEq, Eq, Debug)]
pub enum LdaSize {
    Double,
    Word,
    Half,
}

/// The mnemonics on a bit field ("Instruction Set": bit-field instructions).
#[derive(Clone, Copy, PartialEq, Eq, Debug)]
pub enum BitOp {
    Clr,
    Set,
    Ext,
    Extu,
    Mak,
    Rot,
}

/// One instruction, a variant for each form of its word ("Instruction Set" of the user's manual).
/// `d` is the destination (of a store the datum), `s1` and `s2` are the sources; `words` counts
/// instruction words from the branch itself.
#[derive(Clone, Copy, PartialEq, Eq, Debug)]
pub enum Instr {
    /// Logic and arithmetic with an immediate.
    Imm {
        op: ImmOp,
        d: Reg,
        s1: Reg,
        imm: u16,
    },
    /// Logic and arithmetic on registers, with the carry forms.
    Regs {
        op: RegOp,
        d: Reg,
        s1: Reg,
        s2: Reg,
    },
    /// Memory at a register plus an immediate.
    MemImm {
        op: MemOp,
        d: Reg,
        s1: Reg,
        imm: u16,
    },
    /// Memory at a register plus an index; `scaled` multiplies the index by the size of the datum, and
    /// `usr` asks for the user's address space.
    MemReg {
        op: MemOp,
        d: Reg,
        s1: Reg,
        s2: Reg,
        scaled: bool,
        usr: bool,
    },
    /// The address of a scaled memory form, with no access.
    Lda {
        size: LdaSize,
        d: Reg,
        s1: Reg,
        s2: Reg,
    },
    /// A bit field of a literal width and offset, each 0 to 31; the width of `rot` is 0.
    BitLit {
        op: BitOp,
        d: Reg,
        s1: Reg,
        width: u8,
        offset: u8,
    },
    /// A bit field whose width and offset a register has.
    BitReg {
        op: BitOp,
        d: Reg,
        s1: Reg,
        s2: Reg,
    },
    /// The highest bit that is set (`ff1`, `ones`) or clear (`ff0`).
    Find {
        ones: bool,
        d: Reg,
        s2: Reg,
    },
    /// `br` and `bsr` (`link`), with or without delay slot; the count of words has 26 signed bits.
    Branch {
        link: bool,
        delayed: bool,
        words: i32,
    },
    /// `bb1` (`set`) and `bb0`: a branch on bit `bit`, 0 to 31, of a register.
    BranchBit {
        set: bool,
        delayed: bool,
        bit: u8,
        s1: Reg,
        words: i16,
    },
    /// `bcnd`: a branch on the condition of `mask`, 0 to 15.
    BranchCond {
        delayed: bool,
        mask: u8,
        s1: Reg,
        words: i16,
    },
    /// `jmp` and `jsr` (`link`) to the address in a register.
    Jump {
        link: bool,
        delayed: bool,
        s2: Reg,
    },
    /// `tb1` (`set`) and `tb0`: a trap to a vector, 0 to 511, on bit `bit`, 0 to 31.
    TrapBit {
        set: bool,
        bit: u8,
        s1: Reg,
        vector: u16,
    },
    /// `tcnd`: a trap to a vector, 0 to 511, on the condition of `mask`, 0 to 15.
    TrapCond {
        mask: u8,
        s1: Reg,
        vector: u16,
    },
    /// `tbnd` against an immediate.
    BoundImm {
        s1: Reg,
        imm: u16,
    },
    /// `tbnd` against a register.
    BoundReg {
        s1: Reg,
        s2: Reg,
    },
    /// `rte`, the return from an exception.
    Rte,
    /// `ldcr` and `fldcr` (`float`): reads control register `cr`, 0 to 63.
    Ldcr {
        d: Reg,
        cr: u8,
        float: bool,
    },
    /// `stcr` and `fstcr` (`float`): writes control register `cr`, 0 to 63.
    Stcr {
        s1: Reg,
        cr: u8,
        float: bool,
    },
    /// `xcr` and `fxcr` (`float`): exchanges a register with control register `cr`, 0 to 63.
    Xcr {
        d: Reg,
        s1: Reg,
        cr: u8,
        float: bool,
    },
    /// A word of special function unit `unit`, 1 to 7, with its other 26 bits as they are.
    Sfu {
        unit: u8,
        rest: u32,
    },
}

/// Whether every field is in the range of its place in the word.
pub fn is_valid(instr: &Instr) -> bool
    ensures valid { IsTrue result ↔ IsValid instr.now }
{
    match *instr {
        Instr::Imm { imm: _imm, .. }
        | Instr::MemImm { imm: _imm, .. }
        | Instr::BoundImm { imm: _imm, .. } => true,
        Instr::Regs { .. } | Instr::MemReg { .. } | Instr::Lda { .. } | Instr::BitReg { .. } =>
            true,
        Instr::Find { .. } | Instr::Jump { .. } | Instr::BoundReg { .. } | Instr::Rte => true,
        Instr::BitLit {
            op,
            width,
            offset,
            ..
        } => is_width(op, width) && offset < 32,
        Instr::Branch { words, .. } => words >= -(1 << 25) && words < 1 << 25,
        Instr::BranchBit {
            bit,
            words: _words,
            ..
        } => bit < 32,
        Instr::BranchCond {
            mask,
            words: _words,
            ..
        } => mask < 16,
        Instr::TrapBit { bit, vector, .. } => bit < 32 && vector < 512,
        Instr::TrapCond { mask, vector, .. } => mask < 16 && vector < 512,
        Instr::Ldcr { cr, .. } | Instr::Stcr { cr, .. } | Instr::Xcr { cr, .. } => cr < 64,
        Instr::Sfu { unit, rest } => unit >= 1 && unit < 8 && rest < 1 << 26,
    }
}

/// Whether a literal width, in bits, fits its five bits; a rotation has none.
fn is_width(op: BitOp, width: u8) -> bool
    ensures { IsTrue result ↔ IsWidth op width }
{
    if op == BitOp::Rot {
        width == 0
    } else {
        width < 32
    }
}
