//! A whole run on boards, each begun where the one before it ended at an instruction that software does.

ghost use Rattle.std.specs.Prelude.{ℕ, Bool, ◌≡◌, ◌<◌, ◌≤◌, ◌+◌, ◌-◌, ◌*◌, ◌^◌, ◌++◌, ◌∷◌, [], false, length, IfOk, OnOk};
ghost use Rattle.m88_event.specs.Timeline.{Run, run_with};
ghost use Rattle.m88_isa.specs.ImageProgram.{IsProgramOf};
ghost use Rattle.m88_isa.specs.Machine.{Program};
ghost use Rattle.m88_mem.specs.Marks.{NamesPages, absent_in};
ghost use Rattle.m88_board.specs.Kept.{most_retired};
ghost use Rattle.m88_emul.specs.Inside.Boards.{EndedByVector, GoesOnBehind, HasAdvanced, IsSettledBySoftware, MayAdvance, MayMend, vector_in, with_one_retired};
ghost use Rattle.m88_emul.specs.Timeline.{IsExtendedOutcome};
ghost use Rattle.m88_emul.specs.Unaided.{IsPlainUnaided};
ghost use Rattle.m88_emul.specs.declared.emulation.EmulOutcome.{EmulOutcome as EmulOutcomeValue};

use crate::emulation::{EmulOutcome, Emulation};
use crate::emulator::{emulate_task, task_in};
use crate::task::Task;
use m88_base::{Absent, Image, Listed, NoMemory};
use m88_board::{Board, Parts};
use m88_event::{End, Happened, Letter, Schedule};
use std::alloc::Global;

/// Runs the program of an image with software behind the board: the pages that are named are absent at first, and at
/// most `limit` instructions are retired, those counted that software does. MXM is clear. The letters are those of the
/// schedule, and then `r` and `i` in turn, until nothing is pending and the program has ended or the limit is reached.
pub fn run(
    alloc: Global,
    image: &Image,
    absent: &Absent,
    limit: u32,
    schedule: &Schedule,
) -> Result<EmulOutcome, NoMemory>
    requires pages { NamesPages absent.now }
    requires small { limit ≤ most_retired }
    ensures outcome { IfOk result (λ o. (p : Program) → IsProgramOf image.now p → p.mxm ≡ false
        → IsExtendedOutcome (run_with p (absent_in absent.now) limit schedule.now) o) }
    ensures program { (p : Program) × IsProgramOf image.now p × (p.mxm ≡ false) }
    ensures only { (r : Run) (o other : EmulOutcomeValue)
        → IsExtendedOutcome r o → IsExtendedOutcome r other → o ≡ other }
    ensures plain { IfOk result (λ o. (p : Program) → IsProgramOf image.now p → p.mxm ≡ false
        → IsPlainUnaided (run_with p (absent_in absent.now) limit schedule.now) o) }
    ensures within { IfOk result (λ o. o.outcome.events ≤ length schedule.now + 8 * limit + 8) }
{
    let mut board = Board::new(alloc, image, absent, limit, false)?;
    let mut emulated = vec![in alloc]?;
    let mut taken = 0;
    // A schedule is short, so that the events can be counted.
    prove!(schedule.len() <= 65_536);
    // Every run is over: each event takes something off the weight of what is left of it.
    while !board.is_over() {
        let ended = advance(&mut board, limit, schedule.letter_at(taken))?;
        taken += 1;
        if let Some(vector) = ended {
            board = settle(board, limit, vector, &mut emulated)?;
        }
    }
    let outcome = board.outcome()?;
    Ok(EmulOutcome {
        outcome,
        emulated: Listed::new(emulated),
    })
}

/// Makes the event of a letter. The answer is the vector by which the program ended in it, if it did.
// Inlined into the loop over the letters, and the event with it: of what happened the vector alone is looked at.
#[inline(always)]
fn advance(board: &mut Board, limit: u32, letter: Letter) -> Result<Option<u16>, NoMemory>
    requires { MayAdvance limit board.old }
    ensures { IfOk result (λ vector. HasAdvanced limit letter board.old vector board.new) }
{
    // What always holds of a board is told with its events.
    prove!(board.events() < 1 << 63);
    let happened = board.event(letter)?;
    Ok(vector_of(happened))
}

/// The vector by which the program ended in an event, if it did.
fn vector_of(happened: Happened) -> Option<u16>
    ensures { result ≡ vector_in happened }
{
    match happened {
        Happened::Ended(End::Vector { vector, at: _at }) => Some(vector),
        _ => None,
    }
}

/// A board that ended by a vector, after software did the instruction there, if it does.
fn settle(
    board: Board,
    limit: u32,
    vector: u16,
    emulated: &mut Vec<Emulation>,
) -> Result<Board, NoMemory>
    requires { EndedByVector limit vector board }
    ensures { IfOk result (IsSettledBySoftware limit board emulated.old.items emulated.new.items) }
{
    // What always holds of a board is told with its events.
    let event = board.events();
    let at = board.iunit().candidate().addr;
    let Some(word) = board.fetched(at) else {
        return Ok(board);
    };
    let Some(task) = task_in(vector, word, board.regfile().numbers()) else {
        return Ok(board);
    };
    note(emulated, Emulation { event, at, vector })?;
    mend(board, limit, &task)
}

/// Appends an instruction that software does.
fn note(emulated: &mut Vec<Emulation>, emulation: Emulation) -> Result<(), NoMemory>
    ensures { OnOk result (emulated.new.items ≡ emulated.old.items ++ emulation ∷ []) }
{
    emulated.push(emulation).or(Err(NoMemory))
}

/// The board that goes on behind an instruction that software does, of a board that ended there.
fn mend(board: Board, limit: u32, task: &Task) -> Result<Board, NoMemory>
    requires { MayMend limit board }
    ensures { IfOk result (GoesOnBehind limit task.now board) }
{
    let mut parts = board.into_parts();
    emulate_task(task, &mut parts.regs, &mut parts.memory)?;
    Ok(Board::begin(behind(parts), limit))
}

/// The parts once one more instruction is retired, behind which the program goes on with the following one.
fn behind(mut parts: Parts) -> Parts
    requires { parts.retired < 2 ^ 32 - 1 }
    ensures { result ≡ with_one_retired parts }
{
    parts.last = Some(parts.pc);
    parts.pc = parts.next;
    parts.next = parts.next.wrapping_add(4);
    parts.retired += 1;
    parts
}
