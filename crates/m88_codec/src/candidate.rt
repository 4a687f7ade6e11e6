//! The one instruction that can have a word, read off its bits.

ghost use Rattle.std.specs.Prelude.{◌≡◌, ◌<◌};
ghost use Rattle.m88_codec.specs.Inside.Candidate.{
  bit_op_at,
  candidate_at,
  candidate_of,
  control_form,
  imm_op_at,
  is_odd,
  lda_size_at,
  literal_form,
  mem_op_at,
  reg_op_at,
  register_form,
  words26,
};

use m88_base::Reg;
use m88_isa::{BitOp, ImmOp, Instr, LdaSize, MemOp, RegOp};

/// The one instruction that can have a word. It need not have it: no unused field is looked at.
#[tactic(auto, unfolding(crate::specs::Inside::Candidate::candidate_of))]
pub fn candidate(word: u32) -> Instr
    ensures { result ≡ candidate_of word }
{
    let d = Reg::from_low_bits(word >> 21);
    let s1 = Reg::from_low_bits(word >> 16);
    by_head(word >> 26, d, s1, word % (1 << 16), word % (1 << 26))
}

/// The instruction of a word by its six opening bits.
#[tactic(auto, unfolding(crate::specs::Inside::Candidate::candidate_at))]
fn by_head(head: u32, d: Reg, s1: Reg, low: u32, rest: u32) -> Instr
    requires head_fits { head < 64 }
    requires low_fits { low < 0x10000 }
    requires rest_fits { rest < 0x4000000 }
    ensures { result ≡ candidate_at head d s1 low rest }
{
    let bit = d.number() as u8;
    let imm = low as u16;
    let words = imm.cast_signed();
    let delayed = odd(head);
    match head {
        0..=11 => Instr::MemImm {
            op: mem_op(head),
            d,
            s1,
            imm,
        },
        12..=31 => Instr::Imm {
            op: imm_op(head),
            d,
            s1,
            imm,
        },
        32 => control(d, s1, low),
        33..=47 => Instr::Sfu {
            unit: (head - 32) as u8,
            rest,
        },
        48..=51 => Instr::Branch {
            link: head >= 50,
            delayed,
            words: signed26(rest),
        },
        52..=55 => Instr::BranchBit {
            set: head >= 54,
            delayed,
            bit,
            s1,
            words,
        },
        56..=59 => Instr::BranchCond {
            delayed,
            mask: bit,
            s1,
            words,
        },
        60 => literal(d, s1, low),
        61 => registers(d, s1, low / 256, Reg::from_low_bits(low)),
        _ => Instr::BoundImm { s1, imm },
    }
}

/// A form on registers, by bits 15 to 8 of its word.
#[tactic(auto, unfolding(crate::specs::Inside::Candidate::register_form))]
fn registers(d: Reg, s1: Reg, code: u32, s2: Reg) -> Instr
    requires { code < 256 }
    ensures { result ≡ register_form d s1 code s2 }
{
    match code {
        0..=0x2F => Instr::MemReg {
            op: mem_op(code / 4),
            d,
            s1,
            s2,
            scaled: odd(code / 2),
            usr: odd(code),
        },
        0x30..=0x3F => Instr::Lda {
            size: lda_size(code),
            d,
            s1,
            s2,
        },
        0x40..=0x7F => Instr::Regs {
            op: reg_op(code),
            d,
            s1,
            s2,
        },
        0x80..=0xBF => Instr::BitReg {
            op: bit_op(code / 8),
            d,
            s1,
            s2,
        },
        0xC0..=0xE7 => Instr::Jump {
            link: code >= 0xC8,
            delayed: odd(code / 4),
            s2,
        },
        0xE8..=0xF7 => Instr::Find {
            ones: code == 0xE8,
            d,
            s2,
        },
        0xF8..=0xFB => Instr::BoundReg { s1, s2 },
        _ => Instr::Rte,
    }
}

/// A bit field with a literal, or a trap, by the low 16 bits.
#[tactic(auto, unfolding(crate::specs::Inside::Candidate::literal_form))]
fn literal(d: Reg, s1: Reg, low: u32) -> Instr
    requires { low < 0x10000 }
    ensures { result ≡ literal_form d s1 low }
{
    let bit = d.number() as u8;
    let vector = (low % 512) as u16;
    if low < 0xC000 {
        let width = (low >> 5) % 32;
        Instr::BitLit {
            op: bit_op(low >> 11),
            d,
            s1,
            width: width as u8,
            offset: (low % 32) as u8,
        }
    } else if low < 0xE000 {
        Instr::TrapBit {
            set: low >= 0xD800,
            bit,
            s1,
            vector,
        }
    } else {
        Instr::TrapCond {
            mask: bit,
            s1,
            vector,
        }
    }
}

/// A form on control registers, by the low 16 bits.
#[tactic(auto, unfolding(crate::specs::Inside::Candidate::control_form))]
fn control(d: Reg, s1: Reg, low: u32) -> Instr
    requires { low < 0x10000 }
    ensures { result ≡ control_form d s1 low }
{
    let cr = ((low >> 5) % 64) as u8;
    let float = odd(low >> 11);
    if low < 0x8000 {
        Instr::Ldcr { d, cr, float }
    } else if low < 0xC000 {
        Instr::Stcr { s1, cr, float }
    } else {
        Instr::Xcr { d, s1, cr, float }
    }
}

/// Whether a number is odd.
fn odd(n: u32) -> bool
    ensures { result ≡ is_odd n }
{
    n % 2 == 1
}

/// A field of 26 bits as a signed number.
fn signed26(field: u32) -> i32
    requires { field < 0x4000000 }
    ensures { result ≡ words26 field }
{
    if field < 1 << 25 {
        field as i32
    } else {
        field as i32 - (1 << 26)
    }
}

/// The memory mnemonic of bits 31 to 26, or of bits 15 to 10 of a register form; `st.b` where there is none.
#[tactic(auto, unfolding(crate::specs::Inside::Candidate::mem_op_at))]
fn mem_op(code: u32) -> MemOp
    ensures { result ≡ mem_op_at code }
{
    match code {
        0 => MemOp::XmemBu,
        1 => MemOp::Xmem,
        2 => MemOp::LdHu,
        3 => MemOp::LdBu,
        4 => MemOp::LdD,
        5 => MemOp::Ld,
        6 => MemOp::LdH,
        7 => MemOp::LdB,
        8 => MemOp::StD,
        9 => MemOp::St,
        10 => MemOp::StH,
        _ => MemOp::StB,
    }
}

/// The immediate mnemonic of bits 31 to 26; `cmp` where there is none.
#[tactic(auto, unfolding(crate::specs::Inside::Candidate::imm_op_at))]
fn imm_op(code: u32) -> ImmOp
    ensures { result ≡ imm_op_at code }
{
    match code {
        16 => ImmOp::And,
        17 => ImmOp::AndU,
        18 => ImmOp::Mask,
        19 => ImmOp::MaskU,
        20 => ImmOp::Xor,
        21 => ImmOp::XorU,
        22 => ImmOp::Or,
        23 => ImmOp::OrU,
        24 => ImmOp::Addu,
        25 => ImmOp::Subu,
        26 => ImmOp::Divu,
        27 => ImmOp::Mul,
        28 => ImmOp::Add,
        29 => ImmOp::Sub,
        30 => ImmOp::Div,
        _ => ImmOp::Cmp,
    }
}

/// The mnemonic on three registers of bits 15 to 8; `cmp` where there is none.
#[tactic(auto, unfolding(crate::specs::Inside::Candidate::reg_op_at))]
fn reg_op(code: u32) -> RegOp
    ensures { result ≡ reg_op_at code }
{
    match code {
        0x40 => RegOp::And,
        0x44 => RegOp::AndC,
        0x50 => RegOp::Xor,
        0x54 => RegOp::XorC,
        0x58 => RegOp::Or,
        0x5C => RegOp::OrC,
        0x60 => RegOp::Addu,
        0x61 => RegOp::AdduCo,
        0x62 => RegOp::AdduCi,
        0x63 => RegOp::AdduCio,
        0x64 => RegOp::Subu,
        0x65 => RegOp::SubuCo,
        0x66 => RegOp::SubuCi,
        0x67 => RegOp::SubuCio,
        0x68 => RegOp::Divu,
        0x6C => RegOp::Mul,
        0x70 => RegOp::Add,
        0x71 => RegOp::AddCo,
        0x72 => RegOp::AddCi,
        0x73 => RegOp::AddCio,
        0x74 => RegOp::Sub,
        0x75 => RegOp::SubCo,
        0x76 => RegOp::SubCi,
        0x77 => RegOp::SubCio,
        0x78 => RegOp::Div,
        _ => RegOp::Cmp,
    }
}

/// The scale of a load of an address, of bits 15 to 8; `lda.h` where there is none.
#[tactic(auto, unfolding(crate::specs::Inside::Candidate::lda_size_at))]
fn lda_size(code: u32) -> LdaSize
    ensures { result ≡ lda_size_at code }
{
    match code {
        0x32 => LdaSize::Double,
        0x36 => LdaSize::Word,
        _ => LdaSize::Half,
    }
}

/// The bit-field mnemonic of bits 15 to 11; `rot` where there is none.
#[tactic(auto, unfolding(crate::specs::Inside::Candidate::bit_op_at))]
fn bit_op(code: u32) -> BitOp
    ensures { result ≡ bit_op_at code }
{
    match code {
        16 => BitOp::Clr,
        17 => BitOp::Set,
        18 => BitOp::Ext,
        19 => BitOp::Extu,
        20 => BitOp::Mak,
        _ => BitOp::Rot,
    }
}
