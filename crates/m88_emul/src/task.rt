//! What software is to do for an instruction.

ghost use Rattle.std.specs.Prelude.{ℕ, ◌≡◌, option_map};
ghost use Rattle.m88_isa.specs.Effect.{register};
ghost use Rattle.m88_isa.specs.Instr.{IsValid};
ghost use Rattle.m88_isa.specs.Vector.{bad_division, misaligned};
ghost use Rattle.m88_emul.specs.Aid.{aid_for, aid_of, divides, for_vector, quotient_of, raises_with, unaligned};
ghost use Rattle.m88_emul.specs.Inside.Tasks.{aid_by};

use crate::quotient::quotient;
use m88_base::Reg;
use m88_isa::{
    BAD_DIVISION, ImmOp, Instr, MISALIGNED, MemOp, Plan, RegOp, indexed_address, plan,
    register_after, size_of,
};

/// What software is to do, before memory is read: places are byte addresses, and a value is a whole register.
#[derive(Clone, Copy, Debug)]
pub enum Task {
    /// A register takes a quotient.
    Divide { d: Reg, quotient: u32 },
    /// A register takes a half, with its sign where it is signed.
    LoadHalf { d: Reg, place: u32, signed: bool },
    /// A register takes a word.
    LoadWord { d: Reg, place: u32 },
    /// A register and the one after it take the words of a double.
    LoadDouble { d: Reg, place: u32 },
    /// The low half of a value is stored.
    StoreHalf { value: u32, place: u32 },
    /// A value is stored.
    StoreWord { value: u32, place: u32 },
    /// Two values are stored, one behind the other.
    StoreDouble { value: u32, second: u32, place: u32 },
}

/// What software is to do for an instruction by a vector. None where the instruction doesn't raise it, or is left to
/// end the program.
pub(crate) fn task_of(instr: &Instr, vector: u16, regs: &[u32; 32]) -> Option<Task>
    requires { IsValid instr.now }
    ensures { (memory : ℕ → ℕ) → option_map (λ task. aid_by task memory) result
        ≡ aid_of instr.now vector regs.now memory }
{
    if raises(instr, vector, regs) {
        task_for(instr, vector, regs)
    } else {
        None
    }
}

/// Whether an instruction raises a vector with these registers, MXM clear.
fn raises(instr: &Instr, vector: u16, regs: &[u32; 32]) -> bool
    requires { IsValid instr.now }
    ensures { result ≡ raises_with instr.now regs.now vector }
{
    match plan(instr, regs, false, false, 0, 4) {
        Plan::Raise(raised) => raised == vector,
        Plan::Go(_) | Plan::Trap(_) => false,
    }
}

/// The same for an instruction that raised the vector.
fn task_for(instr: &Instr, vector: u16, regs: &[u32; 32]) -> Option<Task>
    ensures { (memory : ℕ → ℕ) → option_map (λ task. aid_by task memory) result
        ≡ aid_for instr.now vector regs.now memory }
{
    match *instr {
        Instr::Imm {
            op: ImmOp::Div,
            d,
            s1,
            imm,
        } => division(vector, d, register(regs, s1), imm as u32),
        Instr::Regs {
            op: RegOp::Div,
            d,
            s1,
            s2,
        } => division(vector, d, register(regs, s1), register(regs, s2)),
        Instr::MemImm { op, d, s1, imm } => {
            access(
                vector,
                op,
                d,
                indexed_address(register(regs, s1), imm as u32, 1),
                regs,
            )
        }
        Instr::MemReg {
            op,
            d,
            s1,
            s2,
            scaled,
            ..
        } => {
            let scale = if scaled { size_of(op) } else { 1 };
            let place = indexed_address(register(regs, s1), register(regs, s2), scale);
            access(vector, op, d, place, regs)
        }
        _ => None,
    }
}

/// The same for a division of two words.
fn division(vector: u16, d: Reg, s: u32, t: u32) -> Option<Task>
    ensures { (memory : ℕ → ℕ) → option_map (λ task. aid_by task memory) result
        ≡ for_vector bad_division vector (divides d (quotient_of s t)) }
{
    if vector != BAD_DIVISION {
        return None;
    }
    match quotient(s, t) {
        Some(quotient) => Some(Task::Divide { d, quotient }),
        None => None,
    }
}

/// The same for a memory mnemonic at a place.
fn access(vector: u16, op: MemOp, d: Reg, place: u32, regs: &[u32; 32]) -> Option<Task>
    ensures { (memory : ℕ → ℕ) → option_map (λ task. aid_by task memory) result
        ≡ for_vector misaligned vector (unaligned op d place regs.now memory) }
{
    if vector != MISALIGNED {
        return None;
    }
    let value = register(regs, d);
    match op {
        MemOp::LdHu => Some(Task::LoadHalf {
            d,
            place,
            signed: false,
        }),
        MemOp::LdH => Some(Task::LoadHalf {
            d,
            place,
            signed: true,
        }),
        MemOp::Ld => Some(Task::LoadWord { d, place }),
        MemOp::LdD => Some(Task::LoadDouble { d, place }),
        MemOp::StH => Some(Task::StoreHalf { value, place }),
        MemOp::St => Some(Task::StoreWord { value, place }),
        MemOp::StD => Some(Task::StoreDouble {
            value,
            second: register(regs, register_after(d)),
            place,
        }),
        MemOp::XmemBu | MemOp::Xmem | MemOp::LdBu | MemOp::LdB | MemOp::StB => None,
    }
}

/// The value of a register; r0 reads as 0.
fn register(regs: &[u32; 32], r: Reg) -> u32
    ensures { result ≡ register regs.now r }
{
    if r == Reg::ZERO { 0 } else { regs[r.index()] }
}
