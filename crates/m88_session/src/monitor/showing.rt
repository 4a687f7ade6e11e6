//! What a command shows of the board as it stands.
ghost use Rattle.std.specs.Prelude.{ℕ, Bool, ◌≡◌, ◌++◌, map, OnOk};
ghost use Rattle.std.specs.List.{flat_map, range_with_len};
ghost use Rattle.m88_event.specs.Local.{register_seen};
ghost use Rattle.m88_event.specs.Timeline.{Moment, Run, record_at};
ghost use Rattle.m88_isa.specs.Address.{word_address};
ghost use Rattle.m88_isa.specs.Machine.{Program};
ghost use Rattle.m88_mem.specs.DataBus.{bus_of};
ghost use Rattle.m88_board.specs.Board.{completed_of};
ghost use Rattle.m88_board.specs.Moves.{IsAt};
ghost use Rattle.m88_report.specs.Report.{record_lines, word_line};
ghost use Rattle.m88_session.specs.MonitorLines.{breakpoint_line, counts_line, counts_text, registers_at, registers_text, words_from, words_text};

use m88_base::{NoMemory, Reg, push_decimal, push_hex8};
use m88_board::Board;
use m88_report::{push_carry, push_record, push_registers, push_word};
use std::alloc::AllocError;

/// Appends the line of the counts: events, instructions retired, transactions done, transactions pending.
pub(super) fn push_counts(text: &mut Vec<u8>, board: &Board) -> Result<(), NoMemory>
    ensures { OnOk result ((r : Run) (m : Moment) → IsAt r m board.now
        → text.new.items ≡ text.old.items ++ counts_text r.program m) }
{
    push_count_line(
        text,
        board.events(),
        board.issued(),
        board.done(),
        board.pending(),
    )?;
    Ok(())
}

/// Appends that line of such counts.
#[tactic(auto, unfolding(crate::specs::MonitorLines::counts_line))]
fn push_count_line(
    text: &mut Vec<u8>,
    events: u64,
    issued: u32,
    done: u32,
    pending: u8,
) -> Result<(), AllocError>
    ensures { OnOk result
        (text.new.items ≡ text.old.items ++ counts_line events issued done pending) }
{
    text.extend_from_slice(b"events ")?;
    push_decimal(text, events)?;
    text.extend_from_slice(b" issued ")?;
    push_decimal(text, u64::from(issued))?;
    text.extend_from_slice(b" done ")?;
    push_decimal(text, u64::from(done))?;
    text.extend_from_slice(b" pending ")?;
    push_decimal(text, u64::from(pending))?;
    text.extend_from_slice(b"\n")
}

/// Appends the lines of the registers, of which one that waits for a load has no value, and that of the carry.
pub(super) fn push_all_registers(text: &mut Vec<u8>, board: &Board) -> Result<(), NoMemory>
    ensures { OnOk result ((r : Run) (m : Moment) → IsAt r m board.now
        → text.new.items ≡ text.old.items ++ registers_text r.program m) }
{
    push_registers(text, &registers_of(board))?;
    push_carry(text, board.carry())?;
    Ok(())
}

/// r0 to r31, as the board shows them.
fn registers_of(board: &Board) -> [Option<u32>; 32]
    ensures value { result ≡ map (register_seen board.now.pending (completed_of board.now).regs)
        (range_with_len 0 32) }
    ensures moment { (r : Run) (m : Moment) → IsAt r m board.now
        → result ≡ registers_at r.program m }
{
    let mut registers = [None; 32];
    for n in 0..32 {
        registers[n as usize] = board.register(Reg::from_low_bits(n));
    }
    registers
}

/// Appends the four lines of the record that a data fault now would leave.
pub(super) fn push_pipe(text: &mut Vec<u8>, board: &Board) -> Result<(), NoMemory>
    ensures { OnOk result ((r : Run) (m : Moment) → IsAt r m board.now
        → text.new.items ≡ text.old.items ++ record_lines (record_at r m)) }
{
    push_record(text, &board.pipe())?;
    Ok(())
}

/// Appends the lines of so many words of the data bus, from the word of a byte address on, modulo 2^32.
pub(super) fn push_words(
    text: &mut Vec<u8>,
    board: &Board,
    address: u32,
    count: u32,
) -> Result<(), NoMemory>
    ensures value { OnOk result (text.new.items ≡ text.old.items
        ++ flat_map word_line (words_from (bus_of board.now.memory) (word_address address) count)) }
    ensures moment { OnOk result ((r : Run) (m : Moment)
        → IsAt r m board.now
        → text.new.items ≡ text.old.items ++ words_text r.program m address count) }
{
    let mut at = address / 4 * 4;
    for _line in 0..count {
        push_word(text, at, board.word(at))?;
        at = at.wrapping_add(4);
    }
    Ok(())
}

/// Appends the line of a breakpoint at a byte address.
#[tactic(auto, unfolding(crate::specs::MonitorLines::breakpoint_line))]
pub(super) fn push_breakpoint(text: &mut Vec<u8>, address: u32) -> Result<(), AllocError>
    ensures { OnOk result (text.new.items ≡ text.old.items ++ breakpoint_line address) }
{
    text.extend_from_slice(b"break ")?;
    push_hex8(text, address)?;
    text.extend_from_slice(b"\n")
}
