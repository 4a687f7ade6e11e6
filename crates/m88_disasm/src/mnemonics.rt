//! The mnemonic of each operation, in the order of the word table ("Instruction Set": the assembler syntax of
//! each instruction).
#![tactic(auto, unfolding(m88_isa::specs::Mnemonic::text_of))]

ghost use Rattle.std.specs.Prelude.{◌≡◌, true};
ghost use Rattle.m88_isa.specs.Mnemonic.{text_of};
ghost use Rattle.m88_isa.specs.Names.{imm_name, reg_name, mem_name, index_name, lda_name, bits_name, find_name, branch_name, branch_bit_name, branch_cond_name, jump_name, trap_bit_name, ldcr_name, stcr_name, xcr_name};

use m88_isa::{BitOp, ImmOp, LdaSize, MemOp, Mnemonic, RegOp};

/// The mnemonic of an operation with an immediate.
pub fn of_imm(op: ImmOp) -> Mnemonic
    ensures { text_of result ≡ imm_name op }
{
    match op {
        ImmOp::And => Mnemonic::And,
        ImmOp::AndU => Mnemonic::AndU,
        ImmOp::Mask => Mnemonic::Mask,
        ImmOp::MaskU => Mnemonic::MaskU,
        ImmOp::Xor => Mnemonic::Xor,
        ImmOp::XorU => Mnemonic::XorU,
        ImmOp::Or => Mnemonic::Or,
        ImmOp::OrU => Mnemonic::OrU,
        ImmOp::Addu => Mnemonic::Addu,
        ImmOp::Subu => Mnemonic::Subu,
        ImmOp::Divu => Mnemonic::Divu,
        ImmOp::Mul => Mnemonic::Mul,
        ImmOp::Add => Mnemonic::Add,
        ImmOp::Sub => Mnemonic::Sub,
        ImmOp::Div => Mnemonic::Div,
        ImmOp::Cmp => Mnemonic::Cmp,
    }
}

/// The mnemonic of an operation on three registers.
pub fn of_reg(op: RegOp) -> Mnemonic
    ensures { text_of result ≡ reg_name op }
{
    match op {
        RegOp::And => Mnemonic::And,
        RegOp::AndC => Mnemonic::AndC,
        RegOp::Xor => Mnemonic::Xor,
        RegOp::XorC => Mnemonic::XorC,
        RegOp::Or => Mnemonic::Or,
        RegOp::OrC => Mnemonic::OrC,
        RegOp::Addu => Mnemonic::Addu,
        RegOp::Subu => Mnemonic::Subu,
        RegOp::Divu => Mnemonic::Divu,
        RegOp::Mul => Mnemonic::Mul,
        RegOp::Add => Mnemonic::Add,
        RegOp::Sub => Mnemonic::Sub,
        RegOp::Div => Mnemonic::Div,
        RegOp::Cmp => Mnemonic::Cmp,
        RegOp::AdduCo => Mnemonic::AdduCo,
        RegOp::AdduCi => Mnemonic::AdduCi,
        RegOp::AdduCio => Mnemonic::AdduCio,
        RegOp::SubuCo => Mnemonic::SubuCo,
        RegOp::SubuCi => Mnemonic::SubuCi,
        RegOp::SubuCio => Mnemonic::SubuCio,
        RegOp::AddCo => Mnemonic::AddCo,
        RegOp::AddCi => Mnemonic::AddCi,
        RegOp::AddCio => Mnemonic::AddCio,
        RegOp::SubCo => Mnemonic::SubCo,
        RegOp::SubCi => Mnemonic::SubCi,
        RegOp::SubCio => Mnemonic::SubCio,
    }
}

/// The mnemonic of an operation on memory.
pub fn of_mem(op: MemOp) -> Mnemonic
    ensures { text_of result ≡ mem_name op }
{
    match op {
        MemOp::XmemBu => Mnemonic::XmemBu,
        MemOp::Xmem => Mnemonic::Xmem,
        MemOp::LdHu => Mnemonic::LdHu,
        MemOp::LdBu => Mnemonic::LdBu,
        MemOp::LdD => Mnemonic::LdD,
        MemOp::Ld => Mnemonic::Ld,
        MemOp::LdH => Mnemonic::LdH,
        MemOp::LdB => Mnemonic::LdB,
        MemOp::StD => Mnemonic::StD,
        MemOp::St => Mnemonic::St,
        MemOp::StH => Mnemonic::StH,
        MemOp::StB => Mnemonic::StB,
    }
}

/// The mnemonic of an operation on memory in the user's address space.
fn of_user_mem(op: MemOp) -> Mnemonic
    ensures { text_of result ≡ index_name op true }
{
    match op {
        MemOp::XmemBu => Mnemonic::XmemBuUsr,
        MemOp::Xmem => Mnemonic::XmemUsr,
        MemOp::LdHu => Mnemonic::LdHuUsr,
        MemOp::LdBu => Mnemonic::LdBuUsr,
        MemOp::LdD => Mnemonic::LdDUsr,
        MemOp::Ld => Mnemonic::LdUsr,
        MemOp::LdH => Mnemonic::LdHUsr,
        MemOp::LdB => Mnemonic::LdBUsr,
        MemOp::StD => Mnemonic::StDUsr,
        MemOp::St => Mnemonic::StUsr,
        MemOp::StH => Mnemonic::StHUsr,
        MemOp::StB => Mnemonic::StBUsr,
    }
}

/// The mnemonic of an operation on memory at a register's index, in the user's address space or not.
pub fn of_index(op: MemOp, usr: bool) -> Mnemonic
    ensures { text_of result ≡ index_name op usr }
{
    if usr { of_user_mem(op) } else { of_mem(op) }
}

/// The mnemonic of a load of an address.
pub fn of_lda(size: LdaSize) -> Mnemonic
    ensures { text_of result ≡ lda_name size }
{
    match size {
        LdaSize::Double => Mnemonic::LdaD,
        LdaSize::Word => Mnemonic::Lda,
        LdaSize::Half => Mnemonic::LdaH,
    }
}

/// The mnemonic of an operation on a bit field.
pub fn of_bits(op: BitOp) -> Mnemonic
    ensures { text_of result ≡ bits_name op }
{
    match op {
        BitOp::Clr => Mnemonic::Clr,
        BitOp::Set => Mnemonic::Set,
        BitOp::Ext => Mnemonic::Ext,
        BitOp::Extu => Mnemonic::Extu,
        BitOp::Mak => Mnemonic::Mak,
        BitOp::Rot => Mnemonic::Rot,
    }
}

/// The mnemonic of the search for the highest 1, or else 0.
pub fn of_find(ones: bool) -> Mnemonic
    ensures { text_of result ≡ find_name ones }
{
    if ones { Mnemonic::Ff1 } else { Mnemonic::Ff0 }
}

/// The mnemonic of a branch, with a link or not, with a delay slot or not.
pub fn of_branch(link: bool, delayed: bool) -> Mnemonic
    ensures { text_of result ≡ branch_name link delayed }
{
    match (link, delayed) {
        (false, false) => Mnemonic::Br,
        (false, true) => Mnemonic::BrN,
        (true, false) => Mnemonic::Bsr,
        (true, true) => Mnemonic::BsrN,
    }
}

/// The mnemonic of a branch on a bit that is set or not, with a delay slot or not.
pub fn of_branch_bit(set: bool, delayed: bool) -> Mnemonic
    ensures { text_of result ≡ branch_bit_name set delayed }
{
    match (set, delayed) {
        (false, false) => Mnemonic::Bb0,
        (false, true) => Mnemonic::Bb0N,
        (true, false) => Mnemonic::Bb1,
        (true, true) => Mnemonic::Bb1N,
    }
}

/// The mnemonic of a branch on a condition, with a delay slot or not.
pub fn of_branch_cond(delayed: bool) -> Mnemonic
    ensures { text_of result ≡ branch_cond_name delayed }
{
    if delayed {
        Mnemonic::BcndN
    } else {
        Mnemonic::Bcnd
    }
}

/// The mnemonic of a jump, with a link or not, with a delay slot or not.
pub fn of_jump(link: bool, delayed: bool) -> Mnemonic
    ensures { text_of result ≡ jump_name link delayed }
{
    match (link, delayed) {
        (false, false) => Mnemonic::Jmp,
        (false, true) => Mnemonic::JmpN,
        (true, false) => Mnemonic::Jsr,
        (true, true) => Mnemonic::JsrN,
    }
}

/// The mnemonic of a trap on a bit that is set or not.
pub fn of_trap_bit(set: bool) -> Mnemonic
    ensures { text_of result ≡ trap_bit_name set }
{
    if set { Mnemonic::Tb1 } else { Mnemonic::Tb0 }
}

/// The mnemonic of the read of a control register, of the floating-point unit or not.
pub fn of_ldcr(float: bool) -> Mnemonic
    ensures { text_of result ≡ ldcr_name float }
{
    if float {
        Mnemonic::Fldcr
    } else {
        Mnemonic::Ldcr
    }
}

/// The mnemonic of the write of a control register, of the floating-point unit or not.
pub fn of_stcr(float: bool) -> Mnemonic
    ensures { text_of result ≡ stcr_name float }
{
    if float {
        Mnemonic::Fstcr
    } else {
        Mnemonic::Stcr
    }
}

/// The mnemonic of the exchange of a control register, of the floating-point unit or not.
pub fn of_xcr(float: bool) -> Mnemonic
    ensures { text_of result ≡ xcr_name float }
{
    if float { Mnemonic::Fxcr } else { Mnemonic::Xcr }
}
