//! What the next instruction does.

ghost use Rattle.std.specs.Prelude.{◌≡◌, false, Some, option_map};
ghost use Rattle.std.specs.Int.{to_be_bytes, w32};
ghost use Rattle.m88_base.specs.Image.{ProgramImage, byte_at};
ghost use Rattle.m88_isa.specs.ImageProgram.{IsProgramOf};
ghost use Rattle.m88_isa.specs.Instr.{IsValid};
ghost use Rattle.m88_isa.specs.Effect.{meaning_of};
ghost use Rattle.m88_isa.specs.Machine.{Program, by_vector, carried_out, four_bytes, stops, trapped, turn};
ghost use Rattle.m88_trace.specs.Inside.Doings.{CanFollow, IsPlaced, doing_of};

use m88_codec::{BadWord, decode};
use m88_event::End;
use m88_isa::{
    EXIT_SERVICE, Effect, INSTRUCTION_ACCESS, Instr, MONITOR_TRAP, OUTPUT_REGISTER, PUT_SERVICE,
    Plan, SERVICE_REGISTER, UNIMPLEMENTED, plan,
};

/// What the next instruction does.
#[derive(Clone, Copy, Debug)]
pub enum Doing {
    /// It makes its changes.
    Goes(Effect),
    /// The monitor puts a byte out for it.
    Outputs(u8),
    /// The program ends.
    Ends(End),
}

/// Where an instruction stands: the carry, its byte address and that of the one that follows.
#[derive(Clone, Copy, Debug)]
pub struct Place {
    pub carry: bool,
    pub pc: u32,
    pub next: u32,
}

/// What the word at a place does with these registers, or what comes of it that there is none. MXM is clear.
pub(crate) fn doing_at(word: Option<u32>, regs: &[u32; 32], place: Place) -> Doing
    requires { IsPlaced place }
    ensures value { (image : ProgramImage) (p : Program) → IsProgramOf image p
        → option_map (λ w. to_be_bytes w32 w) word ≡ four_bytes (byte_at image) place.pc
        → result ≡ doing_of (turn p regs.now place.carry false place.pc place.next) }
    ensures follows { CanFollow result }
{
    let Some(word) = word else {
        return ends(INSTRUCTION_ACCESS, place.pc);
    };
    match decode(word) {
        Ok(instr) => carried_out(&instr, regs, place),
        Err(BadWord) => ends(UNIMPLEMENTED, place.pc),
    }
}

/// What an instruction does.
fn carried_out(instr: &Instr, regs: &[u32; 32], place: Place) -> Doing
    requires instr { IsValid instr.now }
    requires place { IsPlaced place }
    ensures value { result ≡ doing_of (carried_out
        (meaning_of instr.now regs.now place.carry false place.pc place.next) regs.now place.pc) }
    ensures follows { CanFollow result }
{
    match plan(instr, regs, place.carry, false, place.pc, place.next) {
        Plan::Go(effect) => Doing::Goes(effect),
        Plan::Raise(vector) => ends(vector, place.pc),
        Plan::Trap(vector) => trapped(vector, regs, place.pc),
    }
}

/// The program ends by a vector.
fn ends(vector: u16, at: u32) -> Doing
    ensures { result ≡ doing_of (stops (by_vector vector at)) }
{
    Doing::Ends(End::Vector { vector, at })
}

/// What a taken trap does.
fn trapped(vector: u16, regs: &[u32; 32], at: u32) -> Doing
    ensures value { result ≡ doing_of (trapped vector regs.now at) }
    ensures follows { CanFollow result }
{
    if vector != MONITOR_TRAP {
        return ends(vector, at);
    }
    match regs[SERVICE_REGISTER] {
        PUT_SERVICE => Doing::Outputs((regs[OUTPUT_REGISTER] % (1 << 8)) as u8),
        EXIT_SERVICE => Doing::Ends(End::Exit { at }),
        _ => ends(vector, at),
    }
}
