//! The texts of words that are code.
ghost use Rattle.std.specs.Prelude.{◌≡◌, ◌∷◌, ◌++◌, ℕ, List, IfNone, IfSome, None, OnOk};
ghost use Rattle.m88_base.specs.Lines.{line_end};
ghost use Rattle.m88_isa.specs.Instr.{IsValid};
ghost use Rattle.m88_sourcing.specs.Flow.{branch_target};
ghost use Rattle.m88_sourcing.specs.Labels.{code_text, label_of, named_text};

use crate::flow::branch_target;
use crate::lines::push_named;
use m88_disasm::{
    Condition, InstrText, alone, of_branch, of_branch_bit, of_branch_cond, push_line, text_of,
    with_two,
};
use m88_isa::Instr;
use std::alloc::AllocError;

/// The text of a branch up to its target, and the byte between them; None for any other instruction.
fn front_of(instr: &Instr) -> Option<(InstrText, u8)>
    ensures some { IfSome result (λ front. (name : List ℕ)
        → named_text instr.now name ≡ front.0.bytes ++ front.1 ∷ name) }
    ensures none { (pc : ℕ) → IfNone result (branch_target pc instr.now ≡ None) }
{
    match *instr {
        Instr::Branch { link, delayed, .. } => Some((alone(of_branch(link, delayed)), b' ')),
        Instr::BranchBit {
            set,
            delayed,
            bit,
            s1,
            ..
        } => Some((with_two(of_branch_bit(set, delayed), bit, s1), b',')),
        Instr::BranchCond {
            delayed,
            mask,
            s1,
            ..
        } => Some((with_two(of_branch_cond(delayed), Condition(mask), s1), b',')),
        _ => None,
    }
}

/// Appends the line of a branch, by its text up to its target and the byte between them, with the target's name.
fn push_branch(text: &mut Vec<u8>, front: &[u8], between: u8, to: u32) -> Result<(), AllocError>
    ensures { OnOk result
        (text.new.items ≡ text.old.items ++ ((front.now ++ between ∷ label_of to) ++ line_end)) }
{
    text.extend_from_slice(front)?;
    push_named(text, between, to)
}

/// Appends the line of an instruction at an address: of a branch its text with the name of its target.
pub(crate) fn push_instruction(text: &mut Vec<u8>, at: u32, instr: &Instr) -> Result<(), AllocError>
    requires { IsValid instr.now }
    ensures { OnOk result
        (text.new.items ≡ text.old.items ++ (code_text at instr.now ++ line_end)) }
{
    match (branch_target(at, instr), front_of(instr)) {
        (Some(to), Some((front, between))) => {
            push_branch(text, front.as_str().as_bytes(), between, to)
        }
        _ => push_line(text, text_of(instr).as_str().as_bytes()),
    }
}
