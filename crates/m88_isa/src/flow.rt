//! Where the program goes on: branches, jumps, traps and their conditions ("Instruction Set": flow-control
//! instructions).

ghost use Rattle.std.specs.Prelude.{◌≡◌, ◌<◌};
ghost use Rattle.m88_isa.specs.Effect.{branches, checks, flows, goes, goes_on, traps_if};
ghost use Rattle.m88_isa.specs.Flow.{bit_is, class_in, class_of, words_away};
ghost use Rattle.m88_isa.specs.Inside.Outline.{IsOutline};

use crate::compute::weight_if;
use crate::operands::link_register;
use crate::planned::{Inputs, Outline};
use crate::vector::{FIRST_USER_VECTOR, OUT_OF_BOUNDS, PRIVILEGE};

/// No change but that the program goes on.
fn goes_on(x: Inputs) -> Outline
    ensures { IsOutline result x (λ regs. goes (goes_on x)) }
{
    Outline::Next {
        reg: None,
        carry: x.carry,
    }
}

/// What a taken branch or a jump to a byte address does.
pub(crate) fn flows(link: bool, delayed: bool, target: u32, x: Inputs) -> Outline
    ensures { IsOutline result x (λ regs. flows link delayed target x) }
{
    let behind = if delayed { 8 } else { 4 };
    let reg = if link {
        Some((link_register(), x.pc.wrapping_add(behind)))
    } else {
        None
    };
    let after = if delayed {
        (x.pc.wrapping_add(4), target)
    } else {
        (target, target.wrapping_add(4))
    };
    Outline::Flow {
        reg,
        after,
        bubble: !delayed,
    }
}

/// What a branch on a condition, by a signed count of words, does.
pub(crate) fn branches(taken: bool, delayed: bool, words: i32, x: Inputs) -> Outline
    ensures { IsOutline result x (λ regs. branches taken delayed words x) }
{
    if taken {
        flows(false, delayed, words_away(x.pc, words), x)
    } else {
        goes_on(x)
    }
}

/// What a trap on a condition does.
pub(crate) fn traps_if(taken: bool, vector: u16, x: Inputs) -> Outline
    ensures { IsOutline result x (λ regs. traps_if taken vector x) }
{
    if !taken {
        goes_on(x)
    } else if vector < FIRST_USER_VECTOR {
        Outline::Raise(PRIVILEGE)
    } else {
        Outline::Trap(vector)
    }
}

/// What a bounds check of s against t does.
pub(crate) fn checks(s: u32, t: u32, x: Inputs) -> Outline
    ensures { IsOutline result x (λ regs. checks s t x) }
{
    if s > t {
        Outline::Raise(OUT_OF_BOUNDS)
    } else {
        goes_on(x)
    }
}

/// The byte address a signed count of words away.
pub fn words_away(pc: u32, words: i32) -> u32
    ensures { result ≡ words_away pc words }
{
    pc.wrapping_add(words.cast_unsigned().wrapping_mul(4))
}

/// Whether a bit of a word, 0 to 31, is as wanted.
pub(crate) fn bit_is(set: bool, bit: u8, s: u32) -> bool
    requires { bit < 32 }
    ensures { result ≡ bit_is set bit s }
{
    s >> bit & 1 == weight_if(set, 1)
}

/// The class of a word, a bit of a condition mask.
fn class_of(s: u32) -> u8
    ensures value { result ≡ class_of s }
    ensures bound { result < 4 }
{
    if s == 0 {
        1
    } else if s == 1 << 31 {
        3
    } else if s > 1 << 31 {
        2
    } else {
        0
    }
}

/// Whether a condition mask of four bits has the class of a word.
pub(crate) fn class_in(mask: u8, s: u32) -> bool
    ensures { result ≡ class_in mask s }
{
    mask >> class_of(s) & 1 == 1
}
