//! The text of an instruction, form by form.
ghost use Rattle.std.specs.Prelude.{◌≡◌, ◌+◌, ◌≤◌, ◌++◌, ◌∷◌, [], ℕ, codes, length};
ghost use Rattle.m88_isa.specs.Instr.{IsValid};
ghost use Rattle.m88_isa.specs.Mnemonic.{text_of as spelling};
ghost use Rattle.m88_disasm.specs.Read.{IsReadAs, said_body};
ghost use Rattle.m88_disasm.specs.Text.{instr_text, spelled, word_text};

use super::mnemonics::{
    of_bits, of_branch, of_branch_bit, of_branch_cond, of_find, of_imm, of_index, of_jump, of_lda,
    of_ldcr, of_mem, of_reg, of_stcr, of_trap_bit, of_xcr,
};
use super::operand::{Condition, Control, Field, Operand, Scaled, Target};
use super::put::{InstrText, MOST_TEXT, begun};
use arrayvec::ArrayString;
use m88_base::hex_digit;
use m88_codec::encode;
use m88_isa::Instr::{
    BitLit, BitReg, BoundImm, BoundReg, Branch, BranchBit, BranchCond, Find, Imm, Jump, Lda, Ldcr,
    MemImm, MemReg, Regs, Rte, Sfu, Stcr, TrapBit, TrapCond, Xcr,
};
use m88_isa::{Instr, Mnemonic};

/// Appends a comma and an operand.
fn put_next<A: Operand>(text: &mut InstrText, a: A)
    requires { length text.old.bytes + 12 ≤ MOST_TEXT }
    ensures bytes { text.new.bytes ≡ text.old.bytes ++ codes "," ++ A.written a }
    ensures room { length text.new.bytes ≤ length text.old.bytes + 12 }
{
    text.push_str(",");
    a.put(text);
}

/// A mnemonic without operands.
#[tactic(auto, using(crate::proofs::Names::name_short))]
pub fn alone(mnemonic: Mnemonic) -> InstrText
    ensures { result.bytes ≡ spelled (spelling mnemonic) [] }
{
    let mut text = InstrText::new();
    text.push_str(mnemonic.text());
    text
}

/// A mnemonic and one operand.
fn with_one<A: Operand>(mnemonic: Mnemonic, a: A) -> InstrText
    ensures { result.bytes ≡ spelled (spelling mnemonic) (A.written a ∷ []) }
{
    let mut text = begun(mnemonic);
    a.put(&mut text);
    text
}

/// A mnemonic and two operands.
pub fn with_two<A: Operand, B: Operand>(mnemonic: Mnemonic, a: A, b: B) -> InstrText
    ensures { result.bytes ≡ spelled (spelling mnemonic) (A.written a ∷ B.written b ∷ []) }
{
    let mut text = begun(mnemonic);
    a.put(&mut text);
    put_next(&mut text, b);
    text
}

/// A mnemonic and three operands.
fn with_three<A: Operand, B: Operand, C: Operand>(mnemonic: Mnemonic, a: A, b: B, c: C) -> InstrText
    ensures { result.bytes
        ≡ spelled (spelling mnemonic) (A.written a ∷ B.written b ∷ C.written c ∷ []) }
{
    let mut text = begun(mnemonic);
    a.put(&mut text);
    put_next(&mut text, b);
    put_next(&mut text, c);
    text
}

/// A word by itself.
fn word(word: u32) -> InstrText
    ensures { result.bytes ≡ word_text word }
{
    let mut text = InstrText::new();
    text.push_str(".word 0x");
    for shift in [28, 24, 20, 16, 12, 8, 4, 0] {
        text.push(char::from(hex_digit((word >> shift) % 16)));
    }
    text
}

/// The text of an instruction: its mnemonic and its operands by its form, or its word.
#[tactic(auto, unfolding(crate::specs::Text::instr_text, m88_isa::specs::Mnemonic::text_of))]
fn by_form(instr: &Instr) -> InstrText
    requires { IsValid instr.now }
    ensures { result.bytes ≡ instr_text instr.now }
{
    match *instr {
        Imm { op, d, s1, imm } => with_three(of_imm(op), d, s1, imm),
        MemImm { op, d, s1, imm } => with_three(of_mem(op), d, s1, imm),
        MemReg {
            op,
            d,
            s1,
            s2,
            scaled,
            usr,
        } => {
            let mnemonic = of_index(op, usr);
            if scaled {
                with_two(mnemonic, d, Scaled(s1, s2))
            } else {
                with_three(mnemonic, d, s1, s2)
            }
        }
        Lda { size, d, s1, s2 } => with_two(of_lda(size), d, Scaled(s1, s2)),
        Regs { op, d, s1, s2 } => with_three(of_reg(op), d, s1, s2),
        BitLit {
            op,
            d,
            s1,
            width,
            offset,
        } => with_three(of_bits(op), d, s1, Field { op, width, offset }),
        BitReg { op, d, s1, s2 } => with_three(of_bits(op), d, s1, s2),
        Find { ones, d, s2 } => with_two(of_find(ones), d, s2),
        Branch {
            link,
            delayed,
            words,
        } => with_one(of_branch(link, delayed), Target::new(words)),
        BranchBit {
            set,
            delayed,
            bit,
            s1,
            words,
        } => {
            with_three(
                of_branch_bit(set, delayed),
                bit,
                s1,
                Target::new(i32::from(words)),
            )
        }
        BranchCond {
            delayed,
            mask,
            s1,
            words,
        } => {
            with_three(
                of_branch_cond(delayed),
                Condition(mask),
                s1,
                Target::new(i32::from(words)),
            )
        }
        Jump { link, delayed, s2 } => with_one(of_jump(link, delayed), s2),
        TrapBit {
            set,
            bit,
            s1,
            vector,
        } => with_three(of_trap_bit(set), bit, s1, vector),
        TrapCond { mask, s1, vector } => with_three(Mnemonic::Tcnd, Condition(mask), s1, vector),
        BoundImm { s1, imm } => with_two(Mnemonic::Tbnd, s1, imm),
        BoundReg { s1, s2 } => with_two(Mnemonic::Tbnd, s1, s2),
        Rte => alone(Mnemonic::Rte),
        Ldcr { d, cr, float } => with_two(of_ldcr(float), d, Control { float, cr }),
        Stcr { s1, cr, float } => with_two(of_stcr(float), s1, Control { float, cr }),
        Xcr { d, s1, cr, float } => with_three(of_xcr(float), d, s1, Control { float, cr }),
        Sfu { .. } => word(encode(instr)),
    }
}

/// The text of an instruction in the assembly language: its mnemonic, a blank, and its operands with a comma between
/// each two and no other blank ("Instruction Set": the assembler syntax of each instruction). A branch names its
/// target by the distance in bytes from itself, and a word of a special function unit is written by itself. No text has
/// more than 48 bytes.
pub fn text_of(instr: &Instr) -> ArrayString<48>
    requires { IsValid instr.now }
    ensures value { result.bytes ≡ instr_text instr.now }

    // The language reads the text as the instruction.
    ensures read { (number : ℕ) → IsReadAs number result.bytes (said_body instr.now) }
{
    by_form(instr)
}
