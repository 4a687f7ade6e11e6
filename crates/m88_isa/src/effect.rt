//! What every instruction does, form by form ("Instruction Set").

ghost use Rattle.std.specs.Prelude.{◌≡◌, ◌<◌, ◌%◌};
ghost use Rattle.m88_isa.specs.Effect.{
  FlowsToWords,
  IgnoresUnused,
  MakesAccesses,
  RaisesListed,
  TouchesAligned,
  TrapsForUser,
  WritesWithin,
  computes,
  controls,
  effect,
  gives,
  indexed,
  inputs_of,
  meaning_of,
  plan_for,
  plan_of,
  plan_of_outline,
  register,
  written,
};
ghost use Rattle.m88_isa.specs.Instr.{IsValid};
ghost use Rattle.m88_isa.specs.Operands.{access_count_of, writes_of};
ghost use Rattle.m88_isa.specs.Inside.Outline.{IsOutline, with_stored};
ghost use Rattle.m88_isa.specs.declared.planned.Inputs.{Inputs as InputsValue};

use crate::address::{indexed_address, scale_of, word_address};
use crate::compute::{immediate, registers};
use crate::fields::{bit_field, find_bit, offset_in, width_in, width_of};
use crate::flow::{bit_is, branches, checks, class_in, flows, traps_if, words_away};
use crate::instr::{Instr, MemOp};
use crate::memory::{accesses, accesses_at, no_accesses, size_of};
use crate::operands::is_flow;
use crate::planned::{Computed, Effect, Inputs, Outline, Plan};
use crate::vector::{PRIVILEGE, UNIMPLEMENTED, unit_vector};
use m88_base::Reg;

/// What an instruction does at the byte address `pc`, where `next` is the address of the one that follows. With `mxm`,
/// the bit MXM of PSR, the address of an access is rounded down to a multiple of its size; without it one that isn't
/// such a multiple raises. A change of flow in a taken delay slot, where `next` isn't `pc` + 4, raises before anything
/// else.
pub fn plan(instr: &Instr, regs: &[u32; 32], carry: bool, mxm: bool, pc: u32, next: u32) -> Plan
    requires { IsValid instr.now }
    ensures value { result ≡ plan_of instr.now regs.now carry mxm pc next }
    ensures accesses { MakesAccesses (access_count_of instr.now) result }
    ensures register { WritesWithin (writes_of instr.now) result }
    ensures trap { TrapsForUser result }
    ensures raise { RaisesListed result }
    ensures aligned { TouchesAligned (meaning_of instr.now regs.now carry mxm pc next) }
    ensures flow { pc % 4 ≡ 0 → next % 4 ≡ 0 → FlowsToWords result }
    ensures alone { IgnoresUnused instr.now regs.now carry mxm pc next }
{
    in_full(
        outline(instr, regs, carry, mxm, pc, next),
        regs,
        carry,
        next,
    )
}

/// The plan that an outline stands for.
fn in_full(outline: Outline, regs: &[u32; 32], carry: bool, next: u32) -> Plan
    ensures { result ≡ plan_of_outline outline regs.now carry next }
{
    let following = (next, next.wrapping_add(4));
    match outline {
        Outline::Next { reg, carry } => Plan::Go(Effect {
            reg,
            carry,
            accesses: no_accesses(),
            after: following,
            bubble: false,
        }),
        Outline::Flow { reg, after, bubble } => Plan::Go(Effect {
            reg,
            carry,
            accesses: no_accesses(),
            after,
            bubble,
        }),
        Outline::Memory { op, d, place } => Plan::Go(Effect {
            reg: None,
            carry,
            accesses: accesses_at(op, d, place, regs),
            after: following,
            bubble: false,
        }),
        Outline::Raise(vector) => Plan::Raise(vector),
        Outline::Trap(vector) => Plan::Trap(vector),
    }
}

/// The outline of what `plan` answers.
// Inlined, as `effect` is, where an instruction is issued: there what is told goes on in registers.
#[inline(always)]
pub fn outline(
    instr: &Instr,
    regs: &[u32; 32],
    carry: bool,
    mxm: bool,
    pc: u32,
    next: u32,
) -> Outline
    requires { IsValid instr.now }
    ensures value { plan_of_outline result regs.now carry next
        ≡ plan_of instr.now regs.now carry mxm pc next }
    ensures accesses { MakesAccesses (access_count_of instr.now)
        (plan_of_outline result regs.now carry next) }
    ensures register { WritesWithin (writes_of instr.now)
        (plan_of_outline result regs.now carry next) }
    ensures trap { TrapsForUser (plan_of_outline result regs.now carry next) }
    ensures raise { RaisesListed (plan_of_outline result regs.now carry next) }
    ensures flow { pc % 4 ≡ 0 → next % 4 ≡ 0
        → FlowsToWords (plan_of_outline result regs.now carry next) }
{
    if next != pc.wrapping_add(4) && is_flow(instr) {
        return Outline::Raise(UNIMPLEMENTED);
    }
    let x = Inputs {
        s1: 0,
        s2: 0,
        d: 0,
        after_d: 0,
        carry,
        mxm,
        pc,
        next,
    };
    effect(instr, regs, x)
}

/// The value of a register; r0 reads as 0.
pub(crate) fn register(regs: &[u32; 32], r: Reg) -> u32
    ensures { result ≡ register regs.now r }
{
    if r == Reg::ZERO { 0 } else { regs[r.index()] }
}

/// What an instruction does, a change of flow in a taken delay slot aside: of the registers, each read where its form
/// has it, and of what else is in `x`.
#[inline(always)]
fn effect(instr: &Instr, regs: &[u32; 32], x: Inputs) -> Outline
    requires { IsValid instr.now }
    ensures { plan_of_outline result regs.now x.carry x.next
        ≡ plan_for (effect instr.now (inputs_of instr.now regs.now x.carry x.mxm x.pc x.next)) }
{
    match *instr {
        Instr::Imm { op, d, s1, imm } => {
            let computed = immediate(op, x.carry, register(regs, s1), imm);
            computes(d, computed, x)
        }
        Instr::Regs { op, d, s1, s2 } => {
            let computed = registers(op, x.carry, register(regs, s1), register(regs, s2));
            computes(d, computed, x)
        }
        Instr::MemImm { op, d, s1, imm } => {
            let place = indexed_address(register(regs, s1), imm as u32, 1);
            accesses(op, d, place, x)
        }
        Instr::MemReg {
            op,
            d,
            s1,
            s2,
            scaled,
            usr,
        } => {
            let x = Inputs {
                s1: register(regs, s1),
                s2: register(regs, s2),
                ..x
            };
            indexed(op, d, scaled, usr, x)
        }
        Instr::Lda { size, d, s1, s2 } => {
            let place = indexed_address(register(regs, s1), register(regs, s2), scale_of(size));
            gives(d, place, x)
        }
        Instr::BitLit {
            op,
            d,
            s1,
            width,
            offset,
        } => {
            let width = width_of(width as u32);
            gives(
                d,
                bit_field(op, register(regs, s1), width, offset as u32),
                x,
            )
        }
        Instr::BitReg { op, d, s1, s2 } => {
            let places = register(regs, s2);
            let word = register(regs, s1);
            gives(
                d,
                bit_field(op, word, width_in(places), offset_in(places)),
                x,
            )
        }
        Instr::Find { ones, d, s2 } => gives(d, find_bit(ones, register(regs, s2)), x),
        Instr::Branch {
            link,
            delayed,
            words,
        } => flows(link, delayed, words_away(x.pc, words), x),
        Instr::BranchBit {
            set,
            delayed,
            bit,
            s1,
            words,
        } => branches(
            bit_is(set, bit, register(regs, s1)),
            delayed,
            words as i32,
            x,
        ),
        Instr::BranchCond {
            delayed,
            mask,
            s1,
            words,
        } => branches(class_in(mask, register(regs, s1)), delayed, words as i32, x),
        Instr::Jump { link, delayed, s2 } => flows(
            link,
            delayed,
            word_address(register(regs, s2)),
            x,
        ),
        Instr::TrapBit {
            set,
            bit,
            s1,
            vector,
        } => traps_if(bit_is(set, bit, register(regs, s1)), vector, x),
        Instr::TrapCond { mask, s1, vector } => traps_if(
            class_in(mask, register(regs, s1)),
            vector,
            x,
        ),
        Instr::BoundImm { s1, imm } => checks(register(regs, s1), imm as u32, x),
        Instr::BoundReg { s1, s2 } => checks(register(regs, s1), register(regs, s2), x),
        Instr::Rte => Outline::Raise(PRIVILEGE),
        Instr::Ldcr { float, .. } | Instr::Stcr { float, .. } | Instr::Xcr { float, .. } =>
            controls(float),
        Instr::Sfu { unit, rest: _rest } => Outline::Raise(unit_vector(unit)),
    }
}

/// What a memory form with an index does.
fn indexed(op: MemOp, d: Reg, scaled: bool, usr: bool, x: Inputs) -> Outline
    ensures { IsOutline result x (λ regs. indexed op d scaled usr (with_stored op d regs x)) }
{
    if usr {
        Outline::Raise(PRIVILEGE)
    } else {
        let scale = if scaled { size_of(op) } else { 1 };
        accesses(op, d, indexed_address(x.s1, x.s2, scale), x)
    }
}

/// What a control instruction does.
fn controls(float: bool) -> Outline
    ensures { (x : InputsValue) → IsOutline result x (λ regs. controls float) }
{
    Outline::Raise(if float { unit_vector(1) } else { PRIVILEGE })
}

/// D and the carry take what was computed, or the vector is raised.
fn computes(d: Reg, computed: Computed, x: Inputs) -> Outline
    ensures { IsOutline result x (λ regs. computes d computed x) }
{
    match computed {
        Computed::Gives { value, carry } => Outline::Next {
            reg: written(d, value),
            carry,
        },
        Computed::Raises(vector) => Outline::Raise(vector),
    }
}

/// D takes a value.
fn gives(d: Reg, value: u32, x: Inputs) -> Outline
    ensures { IsOutline result x (λ regs. gives d value x) }
{
    Outline::Next {
        reg: written(d, value),
        carry: x.carry,
    }
}

/// A register and its new value; a write to r0 is lost.
fn written(d: Reg, value: u32) -> Option<(Reg, u32)>
    ensures { result ≡ written d value }
{
    if d == Reg::ZERO {
        None
    } else {
        Some((d, value))
    }
}
