//! The codes of the mnemonics, as the word table gives them ("Instruction Set": the opcode of each mnemonic).

ghost use Rattle.std.specs.Prelude.{◌≡◌, ◌≤◌};
ghost use Rattle.m88_isa.specs.Word.{bit_code, imm_byte, lda_code, mem_byte, reg_code};

use m88_isa::{BitOp, ImmOp, LdaSize, MemOp, RegOp};

/// The first byte of a memory mnemonic; a multiple of 4.
pub fn byte_of_mem(op: MemOp) -> u32
    ensures value { result ≡ mem_byte op }
    ensures bound { result ≤ 0x2C }
{
    match op {
        MemOp::XmemBu => 0x00,
        MemOp::Xmem => 0x04,
        MemOp::LdHu => 0x08,
        MemOp::LdBu => 0x0C,
        MemOp::LdD => 0x10,
        MemOp::Ld => 0x14,
        MemOp::LdH => 0x18,
        MemOp::LdB => 0x1C,
        MemOp::StD => 0x20,
        MemOp::St => 0x24,
        MemOp::StH => 0x28,
        MemOp::StB => 0x2C,
    }
}

/// The first byte of an immediate mnemonic; a multiple of 4.
pub fn byte_of_imm(op: ImmOp) -> u32
    ensures value { result ≡ imm_byte op }
    ensures bound { result ≤ 0x7C }
{
    match op {
        ImmOp::And => 0x40,
        ImmOp::AndU => 0x44,
        ImmOp::Mask => 0x48,
        ImmOp::MaskU => 0x4C,
        ImmOp::Xor => 0x50,
        ImmOp::XorU => 0x54,
        ImmOp::Or => 0x58,
        ImmOp::OrU => 0x5C,
        ImmOp::Addu => 0x60,
        ImmOp::Subu => 0x64,
        ImmOp::Divu => 0x68,
        ImmOp::Mul => 0x6C,
        ImmOp::Add => 0x70,
        ImmOp::Sub => 0x74,
        ImmOp::Div => 0x78,
        ImmOp::Cmp => 0x7C,
    }
}

/// The code of a mnemonic on three registers, in bits 15 to 8.
pub fn code_of_reg(op: RegOp) -> u32
    ensures value { result ≡ reg_code op }
    ensures bound { result ≤ 0x7C00 }
{
    match op {
        RegOp::And => 0x4000,
        RegOp::AndC => 0x4400,
        RegOp::Xor => 0x5000,
        RegOp::XorC => 0x5400,
        RegOp::Or => 0x5800,
        RegOp::OrC => 0x5C00,
        RegOp::Addu => 0x6000,
        RegOp::AdduCo => 0x6100,
        RegOp::AdduCi => 0x6200,
        RegOp::AdduCio => 0x6300,
        RegOp::Subu => 0x6400,
        RegOp::SubuCo => 0x6500,
        RegOp::SubuCi => 0x6600,
        RegOp::SubuCio => 0x6700,
        RegOp::Divu => 0x6800,
        RegOp::Mul => 0x6C00,
        RegOp::Add => 0x7000,
        RegOp::AddCo => 0x7100,
        RegOp::AddCi => 0x7200,
        RegOp::AddCio => 0x7300,
        RegOp::Sub => 0x7400,
        RegOp::SubCo => 0x7500,
        RegOp::SubCi => 0x7600,
        RegOp::SubCio => 0x7700,
        RegOp::Div => 0x7800,
        RegOp::Cmp => 0x7C00,
    }
}

/// The code of a load of an address, in bits 15 to 8.
pub fn code_of_lda(size: LdaSize) -> u32
    ensures value { result ≡ lda_code size }
    ensures bound { result ≤ 0x3A00 }
{
    match size {
        LdaSize::Double => 0x3200,
        LdaSize::Word => 0x3600,
        LdaSize::Half => 0x3A00,
    }
}

/// The code of a bit-field mnemonic, in bits 15 to 11.
pub fn code_of_bit(op: BitOp) -> u32
    ensures value { result ≡ bit_code op }
    ensures bound { result ≤ 0xA800 }
{
    match op {
        BitOp::Clr => 0x8000,
        BitOp::Set => 0x8800,
        BitOp::Ext => 0x9000,
        BitOp::Extu => 0x9800,
        BitOp::Mak => 0xA000,
        BitOp::Rot => 0xA800,
    }
}
