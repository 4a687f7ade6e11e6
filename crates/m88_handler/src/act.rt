//! What an instruction does in the supervisor's mode.
ghost use Rattle.std.specs.Prelude.{◌≡◌, ◌%◌};
ghost use Rattle.m88_isa.specs.Instr.{IsValid};
ghost use Rattle.m88_handler.specs.Machine.{act_by, act_in_place, control_act, is_misplaced, memory_act, plain, trap_act};
ghost use Rattle.m88_handler.specs.Inside.Steps.{CanBeDone};

use m88_base::Reg;
use m88_isa::{Effect, Instr, Plan, UNIMPLEMENTED, is_flow, plan};

/// What an instruction does in the supervisor's mode.
#[derive(Clone, Copy)]
pub enum Act {
    /// It raises a vector.
    Raises(u16),
    /// It makes changes, its accesses in the supervisor's space.
    Works(Effect),
    /// The same, with its accesses in the program's space.
    Reaches(Effect),
    /// A register takes the word of a control register, by its number.
    Reads(Reg, u8),
    /// A control register, by its number, takes the word of a register.
    Writes(Reg, u8),
    /// Both, of the register D and S1.
    Swaps(Reg, Reg, u8),
    /// It returns from the exception.
    Returns,
}

/// What an instruction does at the byte address `pc`, where `next` is the address of the one that follows.
#[tactic(auto, using(crate::proofs::Acts::act_fits))]
pub(crate) fn act_at(
    instr: &Instr,
    regs: &[u32; 32],
    carry: bool,
    mxm: bool,
    pc: u32,
    next: u32,
) -> Act
    requires valid { IsValid instr.now }
    requires pc { pc % 4 ≡ 0 }
    requires next { next % 4 ≡ 0 }
    ensures act { result ≡ act_in_place instr.now regs.now carry mxm pc next }
    ensures fits { CanBeDone result }
{
    if is_misplaced(instr, pc, next) {
        return Act::Raises(UNIMPLEMENTED);
    }
    act_by(instr, plan(&plain(instr), regs, carry, mxm, pc, next))
}

/// Whether an instruction is a change of flow in a taken delay slot.
fn is_misplaced(instr: &Instr, pc: u32, next: u32) -> bool
    requires { IsValid instr.now }
    ensures { result ≡ is_misplaced instr.now pc next }
{
    is_flow(instr) && next != pc.wrapping_add(4)
}

/// The form of an instruction that has its accesses in its own space.
fn plain(instr: &Instr) -> Instr
    ensures value { result ≡ plain instr.now }
    ensures valid { IsValid instr.now → IsValid result }
{
    match *instr {
        Instr::MemReg {
            op,
            d,
            s1,
            s2,
            scaled,
            ..
        } => Instr::MemReg {
            op,
            d,
            s1,
            s2,
            scaled,
            usr: false,
        },
        other => other,
    }
}

/// What an instruction does, by the plan of its plain form.
fn act_by(instr: &Instr, plan: Plan) -> Act
    ensures { result ≡ act_by instr.now plan }
{
    match *instr {
        Instr::MemReg { usr, .. } => memory_act(usr, plan),
        Instr::TrapBit { vector, .. } | Instr::TrapCond { vector, .. } => trap_act(vector, plan),
        Instr::Ldcr { d, cr, float } => control_act(float, Act::Reads(d, cr), plan),
        Instr::Stcr { s1, cr, float } => control_act(float, Act::Writes(s1, cr), plan),
        Instr::Xcr { d, s1, cr, float } => control_act(float, Act::Swaps(d, s1, cr), plan),
        Instr::Rte => Act::Returns,
        _ => memory_act(false, plan),
    }
}

/// What a plan does, in the program's space or in the supervisor's.
fn memory_act(usr: bool, plan: Plan) -> Act
    ensures { result ≡ memory_act usr plan }
{
    match plan {
        Plan::Raise(vector) | Plan::Trap(vector) => Act::Raises(vector),
        Plan::Go(effect) => {
            if usr {
                Act::Reaches(effect)
            } else {
                Act::Works(effect)
            }
        }
    }
}

/// A trap, which raises its vector where it is taken, whichever that is.
fn trap_act(vector: u16, plan: Plan) -> Act
    ensures { result ≡ trap_act vector plan }
{
    match plan {
        Plan::Go(effect) => Act::Works(effect),
        Plan::Raise(_) | Plan::Trap(_) => Act::Raises(vector),
    }
}

/// A control instruction, which is the supervisor's own unless it is a float form.
fn control_act(float: bool, act: Act, plan: Plan) -> Act
    ensures { result ≡ control_act float act plan }
{
    if float { memory_act(false, plan) } else { act }
}
