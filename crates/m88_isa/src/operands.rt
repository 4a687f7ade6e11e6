//! Which registers an instruction reads and writes, and how the instruction unit treats it
//! ("Instruction Set": the operands of each mnemonic).

ghost use Rattle.std.specs.Prelude.{◌≡◌, ◌<◌, ◌≤◌};
ghost use Rattle.std.specs.Int.{bit_at};
ghost use Rattle.m88_isa.specs.Instr.{IsValid};
ghost use Rattle.m88_isa.specs.Operands.{
  access_count_of,
  accesses_of,
  after_d_of,
  bit_of,
  d_of,
  is_flow,
  link_register,
  no_register,
  pair_of,
  reads_d,
  register_after,
  register_if,
  s1_of,
  s2_of,
  second_written_by,
  uses_of,
  waits_for_empty,
  writes_d,
  writes_of,
  written_by,
};

use crate::instr::{Instr, MemOp};
use m88_base::Reg;

/// The registers that an instruction uses, bit n for register n; bit 0 is never set.
#[tactic(auto, unfolding(crate::specs::Operands::uses_of), using(crate::proofs::Sets::uses_lack_r0))]
pub fn uses(instr: &Instr) -> u32
    requires { IsValid instr.now }
    ensures value { result ≡ uses_of instr.now }
    ensures zero { bit_at result 0 ≡ 0 }
{
    pair_of(s1_of(instr), s2_of(instr)) | pair_of(d_of(instr), after_d_of(instr))
}

/// The registers that an instruction writes, at once or by a load, bit n for register n; bit 0 is never set.
#[tactic(auto, unfolding(crate::specs::Operands::writes_of), using(crate::proofs::Sets::writes_lack_r0))]
pub fn writes(instr: &Instr) -> u32
    requires { IsValid instr.now }
    ensures value { result ≡ writes_of instr.now }
    ensures zero { bit_at result 0 ≡ 0 }
{
    pair_of(written_by(instr), second_written_by(instr))
}

/// The accesses to data memory that an instruction makes unless it raises: 0, 1 or 2.
pub fn access_count(instr: &Instr) -> u32
    requires { IsValid instr.now }
    ensures value { result ≡ access_count_of instr.now }
    ensures most { result ≤ 2 }
{
    match *instr {
        Instr::MemImm { op, .. } => accesses_of(op),
        Instr::MemReg { op, usr, .. } => if usr { 0 } else { accesses_of(op) },
        _ => 0,
    }
}

/// Whether it is a branch, a jump, a conditional trap or `rte`, which may not stand in a taken delay slot.
pub fn is_flow(instr: &Instr) -> bool
    requires { IsValid instr.now }
    ensures value { result ≡ is_flow instr.now }
{
    match *instr {
        Instr::Branch { .. }
        | Instr::BranchBit { .. }
        | Instr::BranchCond { .. }
        | Instr::Jump { .. } => true,
        Instr::TrapBit { .. } | Instr::TrapCond { .. } | Instr::Rte => true,
        _ => false,
    }
}

/// Whether it is `tb0`, `tb1` or `tcnd`, which waits until no access is pending.
pub fn waits_for_empty(instr: &Instr) -> bool
    requires { IsValid instr.now }
    ensures value { result ≡ waits_for_empty instr.now }
{
    matches!(*instr, Instr::TrapBit { .. } | Instr::TrapCond { .. })
}

/// The register read in the place of S1, or r0.
pub(crate) fn s1_of(instr: &Instr) -> Reg
    ensures { result ≡ s1_of instr.now }
{
    match *instr {
        Instr::Imm { s1, .. } | Instr::Regs { s1, .. } => s1,
        Instr::MemImm { s1, .. } | Instr::MemReg { s1, .. } | Instr::Lda { s1, .. } => s1,
        Instr::BitLit { s1, .. } | Instr::BitReg { s1, .. } => s1,
        Instr::BranchBit { s1, .. } | Instr::BranchCond { s1, .. } => s1,
        Instr::TrapBit { s1, .. } | Instr::TrapCond { s1, .. } => s1,
        Instr::BoundImm { s1, .. } | Instr::BoundReg { s1, .. } => s1,
        Instr::Stcr { s1, .. } | Instr::Xcr { s1, .. } => s1,
        _ => Reg::ZERO,
    }
}

/// The register read in the place of S2, or r0.
pub(crate) fn s2_of(instr: &Instr) -> Reg
    ensures { result ≡ s2_of instr.now }
{
    match *instr {
        Instr::Regs { s2, .. } | Instr::MemReg { s2, .. } | Instr::Lda { s2, .. } => s2,
        Instr::BitReg { s2, .. } | Instr::Find { s2, .. } => s2,
        Instr::Jump { s2, .. } | Instr::BoundReg { s2, .. } => s2,
        _ => Reg::ZERO,
    }
}

/// The register whose value is stored or exchanged, or r0.
fn d_of(instr: &Instr) -> Reg
    ensures { result ≡ d_of instr.now }
{
    match *instr {
        Instr::MemImm { op, d, .. } | Instr::MemReg { op, d, .. } => register_if(reads_d(op), d),
        _ => Reg::ZERO,
    }
}

/// The register that is the second half of a double word that is stored, or r0.
fn after_d_of(instr: &Instr) -> Reg
    ensures { result ≡ after_d_of instr.now }
{
    match *instr {
        Instr::MemImm { op, d, .. } | Instr::MemReg { op, d, .. } => register_if(
            op == MemOp::StD,
            register_after(d),
        ),
        _ => Reg::ZERO,
    }
}

/// The register that is written, or r0.
fn written_by(instr: &Instr) -> Reg
    ensures { result ≡ written_by instr.now }
{
    match *instr {
        Instr::Imm { d, .. } | Instr::Regs { d, .. } | Instr::Lda { d, .. } => d,
        Instr::MemImm { op, d, .. } | Instr::MemReg { op, d, .. } => register_if(writes_d(op), d),
        Instr::BitLit { d, .. } | Instr::BitReg { d, .. } | Instr::Find { d, .. } => d,
        Instr::Branch { link, .. } | Instr::Jump { link, .. } => register_if(link, link_register()),
        Instr::Ldcr { d, .. } | Instr::Xcr { d, .. } => d,
        _ => Reg::ZERO,
    }
}

/// The register that is the second half of a double word that is loaded, or r0.
fn second_written_by(instr: &Instr) -> Reg
    ensures { result ≡ second_written_by instr.now }
{
    match *instr {
        Instr::MemImm { op, d, .. } | Instr::MemReg { op, d, .. } => register_if(
            op == MemOp::LdD,
            register_after(d),
        ),
        _ => Reg::ZERO,
    }
}

/// Whether a memory mnemonic reads D: a store or an exchange.
fn reads_d(op: MemOp) -> bool
    ensures { result ≡ reads_d op }
{
    matches!(
        op,
        MemOp::XmemBu | MemOp::Xmem | MemOp::StD | MemOp::St | MemOp::StH | MemOp::StB
    )
}

/// Whether a memory mnemonic writes D: a load or an exchange.
fn writes_d(op: MemOp) -> bool
    ensures { result ≡ writes_d op }
{
    !matches!(op, MemOp::StD | MemOp::St | MemOp::StH | MemOp::StB)
}

/// The accesses that a memory mnemonic makes.
fn accesses_of(op: MemOp) -> u32
    ensures { result ≡ accesses_of op }
{
    match op {
        MemOp::XmemBu | MemOp::Xmem | MemOp::LdD | MemOp::StD => 2,
        _ => 1,
    }
}

/// r0, which stands for no register.
pub(crate) fn no_register() -> Reg
    ensures { result ≡ no_register }
{
    Reg::ZERO
}

/// r1, which `bsr` and `jsr` write.
pub(crate) fn link_register() -> Reg
    ensures { result ≡ link_register }
{
    Reg::from_low_bits(1)
}

/// The register after another; after r31 it is r0.
pub fn register_after(d: Reg) -> Reg
    ensures { result ≡ register_after d }
{
    Reg::from_low_bits(d.number() + 1)
}

/// A register where a condition holds, else r0.
fn register_if(there: bool, d: Reg) -> Reg
    ensures { result ≡ register_if there d }
{
    if there { d } else { Reg::ZERO }
}

/// The set of one register; r0 is in none.
fn bit_of(r: Reg) -> u32
    ensures { result ≡ bit_of r }
{
    if r == Reg::ZERO { 0 } else { 1 << r.number() }
}

/// The set of two registers.
fn pair_of(a: Reg, b: Reg) -> u32
    ensures { result ≡ pair_of a b }
{
    bit_of(a) | bit_of(b)
}
