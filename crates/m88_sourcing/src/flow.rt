//! Where an instruction leads, without a look at registers.
ghost use Rattle.std.specs.Prelude.{◌≡◌, ℕ, IsTrue, None};
ghost use Rattle.m88_isa.specs.declared.instr.Instr.TheVariants.{Branch};
ghost use Rattle.m88_sourcing.specs.Flow.{asks_for_end, calls_monitor, goes_on_to, is_through_slot, slot, branch_target};

use m88_isa::{EXIT_SERVICE, ImmOp, Instr, MONITOR_TRAP, SERVICE_REGISTER, words_away};

/// Whether a branch with a delay slot leads right behind that.
fn is_through_slot(pc: u32, delayed: bool, words: i32) -> bool
    ensures { result ≡ is_through_slot pc delayed words }
{
    delayed && words_away(pc, words) == pc.wrapping_add(8)
}

/// Where the program goes on behind a branch that is always taken, or comes back to.
fn goes_on_behind(pc: u32, link: bool, delayed: bool, words: i32) -> Option<u32>
    ensures { result ≡ goes_on_to pc (Branch link delayed words) }
{
    if is_through_slot(pc, delayed, words) {
        Some(pc.wrapping_add(4))
    } else if link {
        Some(pc.wrapping_add(if delayed { 8 } else { 4 }))
    } else {
        None
    }
}

/// Where the program goes on behind an instruction, or comes back to.
pub(crate) fn goes_on_to(pc: u32, instr: &Instr) -> Option<u32>
    ensures { result ≡ goes_on_to pc instr.now }
{
    match *instr {
        Instr::Branch {
            link,
            delayed,
            words,
        } => goes_on_behind(pc, link, delayed, words),
        Instr::Jump { link: false, .. } | Instr::Rte => None,
        Instr::Jump { delayed, .. } => Some(pc.wrapping_add(if delayed { 8 } else { 4 })),
        _ => Some(pc.wrapping_add(4)),
    }
}

/// The target of a branch.
pub(crate) fn branch_target(pc: u32, instr: &Instr) -> Option<u32>
    ensures { result ≡ branch_target pc instr.now }
{
    match *instr {
        Instr::Branch { words, .. } => Some(words_away(pc, words)),
        Instr::BranchBit { words, .. } => Some(words_away(pc, i32::from(words))),
        Instr::BranchCond { words, .. } => Some(words_away(pc, i32::from(words))),
        _ => None,
    }
}

/// The delay slot of a branch or jump.
pub(crate) fn slot(pc: u32, instr: &Instr) -> Option<u32>
    ensures { result ≡ slot pc instr.now }
{
    match *instr {
        Instr::Branch { delayed: true, .. }
        | Instr::BranchBit { delayed: true, .. }
        | Instr::BranchCond { delayed: true, .. }
        | Instr::Jump { delayed: true, .. } => Some(pc.wrapping_add(4)),
        _ => None,
    }
}

/// Whether it is a trap to the monitor that is always taken.
pub(crate) fn calls_monitor(instr: &Instr) -> bool
    ensures value { result ≡ calls_monitor instr.now }
    ensures no_branch { IsTrue result → (pc : ℕ) → branch_target pc instr.now ≡ None }
{
    match *instr {
        Instr::TrapBit {
            set,
            s1,
            vector,
            ..
        } => !set && (s1.number() == 0 && vector == MONITOR_TRAP),
        _ => false,
    }
}

/// Whether it puts the number of the service that ends the program where the monitor looks for it.
pub(crate) fn asks_for_end(instr: &Instr) -> bool
    ensures { result ≡ asks_for_end instr.now }
{
    match *instr {
        Instr::Imm {
            op: ImmOp::Or,
            d,
            s1,
            imm,
        } => d.index() == SERVICE_REGISTER && (s1.number() == 0 && u32::from(imm) == EXIT_SERVICE),
        _ => false,
    }
}
