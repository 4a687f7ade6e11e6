//! The word of an instruction, form by form ("Instruction Set": the instruction formats).

ghost use Rattle.std.specs.Prelude.{◌≡◌, ◌<◌, ◌≤◌, ◌+◌, ◌*◌, ◌^◌, if◌then◌else◌};
ghost use Rattle.m88_base.specs.Reg.{number_of};
ghost use Rattle.m88_isa.specs.Compute.{weight_if};
ghost use Rattle.m88_isa.specs.Instr.{IsValid, IsWidth};
ghost use Rattle.m88_isa.specs.Word.{IsWord, at_cr, at_d, at_s1, first_byte, low16, mem_byte, word_of};
ghost use Rattle.m88_isa.specs.declared.instr.Instr.TheVariants as form;

use super::codes::{byte_of_imm, byte_of_mem, code_of_bit, code_of_lda, code_of_reg};
use m88_base::Reg;
use m88_isa::{BitOp, Instr, MemOp};

/// r0, in the place of a register that a form lacks.
const R0: Reg = Reg::ZERO;

/// The word of an instruction, as the word table adds up its fields.
pub fn encode(instr: &Instr) -> u32
    requires { IsValid instr.now }
    ensures word { IsWord instr.now result }
{
    match *instr {
        Instr::MemImm { op, d, s1, imm } => immediate(byte_of_mem(op), d, s1, imm),
        Instr::Imm { op, d, s1, imm } => immediate(byte_of_imm(op), d, s1, imm),
        Instr::Regs { op, d, s1, s2 } => registers(code_of_reg(op), d, s1, s2),
        Instr::MemReg {
            op,
            d,
            s1,
            s2,
            scaled,
            usr,
        } => registers(code_of_mem(op, scaled, usr), d, s1, s2),
        Instr::Lda { size, d, s1, s2 } => registers(code_of_lda(size), d, s1, s2),
        Instr::BitReg { op, d, s1, s2 } => registers(code_of_bit(op), d, s1, s2),
        Instr::Find { ones, d, s2 } => registers(code_of_find(ones), d, R0, s2),
        Instr::Jump { link, delayed, s2 } => jump(link, delayed, s2),
        Instr::BoundReg { s1, s2 } => registers(0xF800, R0, s1, s2),
        Instr::Rte => registers(0xFC00, R0, R0, R0),
        Instr::BitLit {
            op,
            d,
            s1,
            width,
            offset,
        } => bit_literal(op, d, s1, width, offset),
        Instr::Branch {
            link,
            delayed,
            words,
        } => branch(link, delayed, words),
        Instr::BranchBit {
            set,
            delayed,
            bit,
            s1,
            words,
        } => displaced(branch_head(0xD000_0000, set, delayed), bit, s1, words),
        Instr::BranchCond {
            delayed,
            mask,
            s1,
            words,
        } => displaced(branch_head(0xE800_0000, false, delayed), mask, s1, words),
        Instr::TrapBit {
            set,
            bit,
            s1,
            vector,
        } => trap(0xD000, set, bit, s1, vector),
        Instr::TrapCond { mask, s1, vector } => trap(0xE800, false, mask, s1, vector),
        Instr::BoundImm { s1, imm } => immediate(0xF8, R0, s1, imm),
        Instr::Ldcr { d, cr, float } => control(0x4000, float, cr, d, R0),
        Instr::Stcr { s1, cr, float } => control(0x8000, float, cr, R0, s1),
        Instr::Xcr { d, s1, cr, float } => control(0xC000, float, cr, d, s1),
        Instr::Sfu { unit, rest } => unit_word(unit, rest),
    }
}

/// An immediate form: the first byte, D, S1 and the immediate.
fn immediate(byte: u32, d: Reg, s1: Reg, imm: u16) -> u32
    requires { byte ≤ 0xFC }
    ensures { result ≡ first_byte byte + at_d (number_of d) + at_s1 (number_of s1) + imm }
{
    fields(byte << 24, d.number(), s1.number(), imm as u32)
}

/// A register form: D, S1, the code and S2.
fn registers(code: u32, d: Reg, s1: Reg, s2: Reg) -> u32
    requires { code ≤ 0xFFE0 }
    ensures { result ≡
        first_byte 0xF4 + at_d (number_of d) + at_s1 (number_of s1) + code + number_of s2 }
{
    fields(0xF400_0000, d.number(), s1.number(), code + s2.number())
}

/// A jump: a register form with its two marks and S2 alone.
fn jump(link: bool, delayed: bool, s2: Reg) -> u32
    ensures { result ≡ word_of (form.Jump link delayed s2) }
{
    let code = 0xC000 + weight_if(link, 0x800) + weight_if(delayed, 0x400);
    registers(code, R0, R0, s2)
}

/// A bit field with its literal width and offset.
fn bit_literal(op: BitOp, d: Reg, s1: Reg, width: u8, offset: u8) -> u32
    requires { IsWidth op width × (offset < 32) }
    ensures { result ≡ word_of (form.BitLit op d s1 width offset) }
{
    let code = code_of_bit(op) + ((width as u32) << 5) + offset as u32;
    literal(code, d.number(), s1)
}

/// A trap: its code, with the mark of `tb1` where `set`, the number in the place of D, S1 and the vector.
fn trap(code: u32, set: bool, d: u8, s1: Reg, vector: u16) -> u32
    requires code_fits { code ≤ 0xE800 }
    requires d_fits { d < 32 }
    requires vector_fits { vector < 512 }
    ensures { result ≡
        first_byte 0xF0 + code + weight_if set 0x800 + at_d d + at_s1 (number_of s1) + vector }
{
    literal(code + weight_if(set, 0x800) + vector as u32, d as u32, s1)
}

/// A form with a literal or a vector: the low 16 bits, the number in the place of D, and S1.
fn literal(low: u32, d: u32, s1: Reg) -> u32
    requires low_fits { low < 0x10000 }
    requires d_fits { d < 32 }
    ensures { result ≡ first_byte 0xF0 + at_d d + at_s1 (number_of s1) + low }
{
    fields(0xF000_0000, d, s1.number(), low)
}

/// A branch: its two marks and the count of words.
fn branch(link: bool, delayed: bool, words: i32) -> u32
    ensures { result ≡ word_of (form.Branch link delayed words) }
{
    branch_head(0xC000_0000, link, delayed) + words.cast_unsigned() % (1 << 26)
}

/// A conditional branch: its opening bits, the number in the place of D, S1 and the count of words.
fn displaced(head: u32, d: u8, s1: Reg, words: i16) -> u32
    requires head_fits { head ≤ 0xFC000000 }
    requires d_fits { d < 32 }
    ensures { result ≡ head + at_d d + at_s1 (number_of s1) + low16 words }
{
    fields(head, d as u32, s1.number(), words.cast_unsigned() as u32)
}

/// A control form: its code, the control register, D, and the register that stands in S1 and S2.
fn control(code: u32, float: bool, cr: u8, d: Reg, s1: Reg) -> u32
    requires code_fits { code ≤ 0xC000 }
    requires cr_fits { cr < 64 }
    ensures { result ≡
        first_byte 0x80 + code + weight_if float 0x800 + at_d (number_of d) + at_s1 (number_of s1)
        + at_cr cr + number_of s1 }
{
    let low = code + weight_if(float, 0x800) + ((cr as u32) << 5) + s1.number();
    fields(0x8000_0000, d.number(), s1.number(), low)
}

/// A word of a special function unit: its number and the other 26 bits.
fn unit_word(unit: u8, rest: u32) -> u32
    requires unit_fits { unit < 8 }
    requires rest_fits { rest < 2 ^ 26 }
    ensures { result ≡ word_of (form.Sfu unit rest) }
{
    0x8000_0000 + ((unit as u32) << 26) + rest
}

/// The sum of a word's opening bits, D, S1 and its low 16 bits.
fn fields(head: u32, d: u32, s1: u32, low: u32) -> u32
    requires head_fits { head ≤ 0xFC000000 }
    requires d_fits { d < 32 }
    requires s1_fits { s1 < 32 }
    requires low_fits { low < 0x10000 }
    ensures { result ≡ head + at_d d + at_s1 s1 + low }
{
    head + (d << 21) + (s1 << 16) + low
}

/// The opening bits of a branch with its two marks, `link` or `set` and `.n`.
fn branch_head(base: u32, first: bool, delayed: bool) -> u32
    requires { base ≤ 0xE8000000 }
    ensures value { result ≡ base + weight_if first (2 ^ 27) + weight_if delayed (2 ^ 26) }
    ensures bound { result ≤ base + 0x0C000000 }
{
    base + weight_if(first, 1 << 27) + weight_if(delayed, 1 << 26)
}

/// The code of `ff1` (`ones`) or `ff0`, in bits 15 to 8.
fn code_of_find(ones: bool) -> u32
    ensures value { result ≡ (if ones then 0xE800 else 0xEC00) }
    ensures bound { result ≤ 0xEC00 }
{
    if ones { 0xE800 } else { 0xEC00 }
}

/// The code of a memory mnemonic with its marks in a register form.
fn code_of_mem(op: MemOp, scaled: bool, usr: bool) -> u32
    ensures value { result ≡ mem_byte op * 0x100 + weight_if scaled 0x200 + weight_if usr 0x100 }
    ensures bound { result ≤ 0x2F00 }
{
    (byte_of_mem(op) << 8) + weight_if(scaled, 0x200) + weight_if(usr, 0x100)
}

/// What a mark of the mnemonic, as `.n` or `.usr`, adds to the word.
fn weight_if(there: bool, bits: u32) -> u32
    ensures value { result ≡ weight_if there bits }
    ensures bound { result ≤ bits }
{
    if there { bits } else { 0 }
}
