//! The trace of a run on a board.

ghost use Rattle.std.specs.Prelude.{ℕ, ◌≡◌, ◌≤◌, false, IfOk, OnOk};
ghost use Rattle.m88_board.specs.Board.{local_of};
ghost use Rattle.m88_board.specs.Kept.{most_retired};
ghost use Rattle.m88_event.specs.Local.{is_over_by};
ghost use Rattle.m88_event.specs.Timeline.{run_with};
ghost use Rattle.m88_isa.specs.ImageProgram.{IsProgramOf};
ghost use Rattle.m88_isa.specs.Machine.{Program};
ghost use Rattle.m88_mem.specs.Marks.{NamesPages, absent_in};
ghost use Rattle.m88_trace.specs.Inside.Running.{HasTracedStep};
ghost use Rattle.m88_trace.specs.Inside.Sheets.{AreMade};
ghost use Rattle.m88_trace.specs.Texts.{IsText};
ghost use Rattle.m88_trace.specs.Trace.{IsRunTrace, trace_line, trace_of};

use crate::sheet::Sheet;
use crate::upcoming::upcoming_on;
use m88_base::{Absent, Image, NoMemory};
use m88_board::{Board, Schedule, Told, Unwatched, Walk};
use m88_event::Letter;
use std::alloc::Global;

/// The trace of a run of the program of an image on a board: the pages that are named are absent at first, at most
/// `limit` instructions are retired, and MXM is clear. A line that tells of a load waits until its datum is known.
pub fn trace_run(
    alloc: Global,
    image: &Image,
    absent: &Absent,
    limit: u32,
    schedule: &Schedule,
) -> Result<Vec<u8>, NoMemory>
    requires pages { NamesPages absent.now }
    requires small { limit ≤ most_retired }
    ensures run { IfOk result (λ text. (p : Program) → IsProgramOf image.now p → p.mxm ≡ false
        → IsRunTrace (run_with p (absent_in absent.now) limit schedule.now) text.items) }

    // It depends on the program and the limit alone, and it is checked as the lines that it has.
    ensures alone { IfOk result (λ text. (p : Program) → IsProgramOf image.now p → p.mxm ≡ false
        → text.items ≡ trace_of p limit) }
    ensures checked { IfOk result (λ text. (p : Program) → IsProgramOf image.now p → p.mxm ≡ false
        → (lines : ℕ) × IsText (trace_line p) text.items lines) }
    ensures program { (p : Program) × IsProgramOf image.now p × (p.mxm ≡ false) }
{
    let mut board = Board::new(alloc, image, absent, limit, false)?;
    let mut walk = Walk::new(&mut board, schedule);
    let mut sheet = Sheet::new(alloc);
    // Every run is over: each event takes something off the weight of what is left of it.
    while !walk.board().is_over() {
        step(&mut walk, &mut sheet)?;
    }
    Ok(sheet.finish())
}

/// Makes the next event of a run, and writes what it adds to the trace.
fn step(walk: &mut Walk, sheet: &mut Sheet) -> Result<(), NoMemory>
    requires going { is_over_by walk.old.board.now.limit (local_of walk.old.board.now) ≡ false }
    requires made { AreMade sheet.old }
    ensures { OnOk result (HasTracedStep walk.old walk.new sheet.old sheet.new) }
{
    match walk.letter() {
        Letter::Issue => {
            let next = upcoming_on(walk.board());
            let mut told = Told::nothing();
            let happened = walk.next_told(&mut Unwatched, &mut told)?;
            sheet.note_issue(&next, &told, happened)
        }
        Letter::Answer => {
            let due = sheet.data(walk.board());
            let happened = walk.next(&mut Unwatched)?;
            sheet.note_answer(due, happened);
            Ok(())
        }
        Letter::Evict => {
            walk.next(&mut Unwatched)?;
            Ok(())
        }
    }
}
