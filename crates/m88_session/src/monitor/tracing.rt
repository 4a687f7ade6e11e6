//! The command `trace`, which tells events one by one.
ghost use Rattle.std.specs.Prelude.{ℕ, Bool, ◌≡◌, ◌++◌, ◌%◌, Option, IfSome, OnOk, codes, decimal};
ghost use Rattle.m88_base.specs.Hex.{hex2, hex8};
ghost use Rattle.m88_base.specs.Lines.{line_end};
ghost use Rattle.m88_event.specs.Timeline.{Moment, Run};
ghost use Rattle.m88_isa.specs.Held.{instruction_at};
ghost use Rattle.m88_isa.specs.Instr.{IsValid};
ghost use Rattle.m88_isa.specs.Machine.{Program};
ghost use Rattle.m88_board.specs.Moves.{IsAt};
ghost use Rattle.m88_session.specs.MonitorLines.{happened_line, issue_line, letter_text, text_of_any, why_line};
ghost use Rattle.m88_session.specs.Inside.SessionKept.{Carries, IsBefore, told_line};
ghost use Rattle.m88_session.specs.declared.script.MonitorCommand.TheVariants.{Trace};

use super::Monitor;
use m88_base::{NoMemory, push_decimal, push_hex2, push_hex8};
use m88_board::{Board, Watch};
use m88_codec::decode;
use m88_disasm::text_of;
use m88_event::{Happened, Letter, Why};
use m88_isa::Instr;
use m88_report::push_end;
use std::alloc::AllocError;

/// What the line of an event wants to know of the board before it.
#[derive(Clone, Copy)]
struct Before {
    /// The number of the event.
    number: u64,
    /// Its letter.
    letter: Letter,
    /// The byte address of NIP.
    address: u32,
    /// The instruction there, where there is one.
    instruction: Option<Instr>,
    /// The number that a record gets.
    fault: u64,
}

impl<'a> Monitor<'a> {
    /// `trace`: up to so many events, fewer where the run is over, and a line for each.
    pub(super) fn trace<W: Watch>(
        &mut self,
        count: u32,
        watch: &mut W,
        text: &mut Vec<u8>,
    ) -> Result<(), NoMemory>
        ensures { Carries (Trace count) (W.seen watch.old) (W.seen watch.new) self.old self.new
            text.old.items text.new.items result }
    {
        for _made in 0..count {
            if self.walk.board().is_over() {
                return Ok(());
            }
            let letter = self.walk.letter();
            let before = noted(self.walk.board(), letter);
            let happened = self.walk.next(watch)?;
            push_event(text, &before, happened)?;
        }
        Ok(())
    }
}

/// What the line of the event of a letter wants to know of the board.
fn noted(board: &Board, letter: Letter) -> Before
    ensures before { (r : Run) (m : Moment) → IsAt r m board.now
        → IsBefore r.program letter m result }
    ensures valid { IfSome result.instruction IsValid }
{
    let address = board.iunit().candidate().addr;
    Before {
        number: board.events() + 1,
        letter,
        address,
        instruction: instruction_at(board, address),
        fault: u64::from(board.faults()) + 1,
    }
}

/// The instruction at the address of a word, where there is one.
fn instruction_at(board: &Board, address: u32) -> Option<Instr>
    requires { address % 4 ≡ 0 }
    ensures value { (r : Run) (m : Moment) → IsAt r m board.now
        → result ≡ instruction_at r.program address }
    ensures valid { IfSome result IsValid }
{
    let word = board.fetched(address)?;
    decode(word).ok()
}

/// Appends the line of an event.
fn push_event(text: &mut Vec<u8>, before: &Before, happened: Happened) -> Result<(), AllocError>
    requires { IfSome before.now.instruction IsValid }
    ensures { OnOk result (text.new.items ≡ text.old.items ++ told_line before.now happened) }
{
    push_letter(text, before.number, before.letter)?;
    push_happened(text, before, happened)
}

/// Appends the number of an event and its letter.
#[tactic(auto, unfolding(crate::specs::MonitorLines::letter_text))]
fn push_letter(text: &mut Vec<u8>, number: u64, letter: Letter) -> Result<(), AllocError>
    ensures { OnOk result (text.new.items ≡ text.old.items ++ letter_text number letter) }
{
    push_decimal(text, number)?;
    match letter {
        Letter::Issue => text.extend_from_slice(b" i "),
        Letter::Answer => text.extend_from_slice(b" r "),
        Letter::Evict => text.extend_from_slice(b" e "),
    }
}

/// Appends what an event did, to the end of the line.
#[tactic(auto, unfolding(crate::specs::MonitorLines::happened_line))]
fn push_happened(text: &mut Vec<u8>, before: &Before, happened: Happened) -> Result<(), AllocError>
    requires { IfSome before.now.instruction IsValid }
    ensures { OnOk result (text.new.items ≡ text.old.items ++ happened_line before.now.address
        before.now.instruction before.now.fault happened) }
{
    match happened {
        Happened::Issued => push_issue(text, before.address, &before.instruction),
        Happened::Bubble => text.extend_from_slice(b"bubble\n"),
        Happened::Stalled(why) => push_why(text, why),
        Happened::Answered => text.extend_from_slice(b"answer\n"),
        Happened::Faulted(_) => push_fault(text, before.fault),
        Happened::Evicted => text.extend_from_slice(b"evict\n"),
        Happened::Idle => text.extend_from_slice(b"idle\n"),
        Happened::Served(byte) => push_output(text, before.address, byte),
        Happened::Ended(end) => push_end(text, end),
    }
}

/// Appends that an instruction was issued, and which.
#[tactic(auto, unfolding(crate::specs::MonitorLines::issue_line))]
fn push_issue(
    text: &mut Vec<u8>,
    address: u32,
    instruction: &Option<Instr>,
) -> Result<(), AllocError>
    requires { IfSome instruction.now IsValid }
    ensures { OnOk result (text.new.items
        ≡ text.old.items ++ issue_line address instruction.now) }
{
    text.extend_from_slice(b"issue ")?;
    push_hex8(text, address)?;
    text.push(b' ')?;
    push_instruction(text, instruction)?;
    text.push(b'\n')?;
    Ok(())
}

/// Appends the text of an instruction, where there is one.
fn push_instruction(text: &mut Vec<u8>, instruction: &Option<Instr>) -> Result<(), AllocError>
    requires { IfSome instruction.now IsValid }
    ensures { OnOk result (text.new.items ≡ text.old.items ++ text_of_any instruction.now) }
{
    match instruction {
        Some(instr) => text.extend_from_slice(text_of(instr).as_str().as_bytes()),
        None => Ok(()),
    }
}

/// Appends why the next instruction is held.
fn push_why(text: &mut Vec<u8>, why: Why) -> Result<(), AllocError>
    ensures { OnOk result (text.new.items ≡ text.old.items ++ why_line why) }
{
    match why {
        Why::Busy(register) => push_busy(text, register.number()),
        Why::Full => text.extend_from_slice(b"full\n"),
        Why::Sync => text.extend_from_slice(b"sync\n"),
    }
}

/// Appends that a register waits, by its number.
fn push_busy(text: &mut Vec<u8>, number: u32) -> Result<(), AllocError>
    ensures { OnOk result (text.new.items
        ≡ text.old.items ++ codes "busy r" ++ decimal number ++ line_end) }
{
    text.extend_from_slice(b"busy r")?;
    push_decimal(text, u64::from(number))?;
    text.extend_from_slice(b"\n")
}

/// Appends the number of a fault.
fn push_fault(text: &mut Vec<u8>, number: u64) -> Result<(), AllocError>
    ensures { OnOk result (text.new.items
        ≡ text.old.items ++ codes "fault " ++ decimal number ++ line_end) }
{
    text.extend_from_slice(b"fault ")?;
    push_decimal(text, number)?;
    text.extend_from_slice(b"\n")
}

/// Appends that a byte was put out for the trap at an address.
fn push_output(text: &mut Vec<u8>, address: u32, byte: u8) -> Result<(), AllocError>
    ensures { OnOk result (text.new.items ≡ text.old.items
        ++ codes "output " ++ hex8 address ++ codes " " ++ hex2 byte ++ line_end) }
{
    text.extend_from_slice(b"output ")?;
    push_hex8(text, address)?;
    text.push(b' ')?;
    push_hex2(text, byte)?;
    text.extend_from_slice(b"\n")
}
