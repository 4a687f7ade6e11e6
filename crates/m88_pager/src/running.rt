//! A whole run on a board whose transactions are carried out a second time in frames.

ghost use Rattle.std.specs.Prelude.{ℕ, ◌≡◌, ◌≤◌, ◌+◌, ◌*◌, false, length, IfOk, OnOk};
ghost use Rattle.std.specs.NonZero.{non_zero_usize_get};
ghost use Rattle.m88_event.specs.Run.{IsOutcome};
ghost use Rattle.m88_event.specs.Timeline.{Run, run_with};
ghost use Rattle.m88_event.specs.declared.outcome.Outcome.{Outcome as OutcomeValue};
ghost use Rattle.m88_isa.specs.ImageProgram.{IsProgramOf};
ghost use Rattle.m88_isa.specs.Machine.{Program};
ghost use Rattle.m88_mem.specs.DataBus.{image_bytes};
ghost use Rattle.m88_mem.specs.Marks.{NamesPages, absent_in};
ghost use Rattle.m88_board.specs.Kept.{most_retired};
ghost use Rattle.m88_pager.specs.Ends.{UsesStore};
ghost use Rattle.m88_pager.specs.Inside.Calls.{PutsPages};
ghost use Rattle.m88_pager.specs.Inside.Came.{HasPagedStep, IsFinished, MayFinish, MayStep};
ghost use Rattle.m88_pager.specs.Paged.{HoldsNoneWhereTold, IsPagedRun, most_frames};

use crate::changed::changed_words;
use crate::frames::Frames;
use crate::paged::{PageEnd, Paged};
use crate::store::PageStore;
use m88_base::{Absent, Image, Listed};
use m88_board::{Board, Schedule, Unwatched, Walk};
use std::alloc::Global;
use std::num::NonZeroUsize;

/// Runs the program of an image on a board, MXM clear, and keeps its data bus a second time in so many frames, 1 to 64,
/// before a store of pages: each transaction that the board answers or finishes is carried out there, in order. The
/// pages that are named are absent at first, and at most `limit` instructions are retired; the letters are those of the
/// schedule, and then `r` and `i` in turn, until nothing is pending and the program has ended or the limit is reached.
/// Then every dirty page goes out, and the words that changed are taken from the store. Where the store fails or memory
/// runs out, the board is gone.
pub fn page_run<P: PageStore>(
    alloc: Global,
    image: &Image,
    absent: &Absent,
    limit: u32,
    schedule: &Schedule,
    frames: u32,
    store: &mut P,
) -> Result<Paged, PageEnd>
    requires pages { NamesPages absent.now }
    requires small { limit ≤ most_retired }
    requires some { 1 ≤ frames }
    requires most { frames ≤ most_frames }
    requires empty { HoldsNoneWhereTold (P.pages store.old) }
    ensures run { IfOk result (λ o. (p : Program) → IsProgramOf image.now p → p.mxm ≡ false
        → IsPagedRun (run_with p (absent_in absent.now) limit schedule.now) frames (P.pages store.old)
        (P.pages store.new) (P.writes store.old) (P.writes store.new) o) }
    ensures only { (r : Run) (o other : OutcomeValue) → IsOutcome r o → IsOutcome r other → o ≡ other }
    ensures within { IfOk result (λ o. o.outcome.events ≤ length schedule.now + 8 * limit + 8) }
    ensures program { (p : Program) × IsProgramOf image.now p × (p.mxm ≡ false) }
    ensures store { UsesStore (P.pages store.old) (P.pages store.new) (P.faults store.old)
        (P.faults store.new) result }
{
    let mut board = Board::new(alloc, image, absent, limit, false)?;
    let mut walk = Walk::new(&mut board, schedule);
    let mut paging = Frames::new(alloc, count_of(frames))?;
    // Every run is over: each event takes something off the weight of what is left of it.
    while !walk.board().is_over() {
        step(&mut walk, &mut paging, store, image)?;
    }
    finish(alloc, board, paging, store, image)
}

/// A number of frames.
fn count_of(frames: u32) -> NonZeroUsize
    requires { 1 ≤ frames }
    ensures { non_zero_usize_get result ≡ frames }
{
    match NonZeroUsize::new(frames as usize) {
        Some(count) => count,
        None => unreachable!(),
    }
}

/// Makes the next event of a run, and carries the transactions out in the frames that it answered or finished, in
/// order.
fn step<P: PageStore>(
    walk: &mut Walk,
    paging: &mut Frames,
    store: &mut P,
    image: &Image,
) -> Result<(), PageEnd>
    requires { MayStep walk.old.board.now paging.old }
    ensures stepped { OnOk result (HasPagedStep (image_bytes image.now) walk.old walk.new paging.old
        paging.new (P.pages store.old) (P.pages store.new)) }
    ensures store { PutsPages paging.old.outs paging.new.outs (P.pages store.old) (P.pages store.new)
        (P.writes store.old) (P.writes store.new) (P.faults store.old) (P.faults store.new) result }
{
    let board = walk.board();
    // What always holds of a board is told with its events.
    prove!(board.events() <= 1 << 63);
    let words = board.dunit().triples();
    let before = board.done();
    walk.next(&mut Unwatched)?;
    let count = walk.board().done() - before;
    paging.carry_all(store, image, &words[..count as usize])
}

/// What a run came to that is over, once every page left its frame.
fn finish<P: PageStore>(
    alloc: Global,
    board: Board,
    mut paging: Frames,
    store: &mut P,
    image: &Image,
) -> Result<Paged, PageEnd>
    requires { MayFinish board paging }
    ensures finished { IfOk result (IsFinished image.now board paging (P.pages store.old)
        (P.pages store.new) (P.writes store.old) (P.writes store.new)) }
    ensures store { UsesStore (P.pages store.old) (P.pages store.new) (P.faults store.old)
        (P.faults store.new) result }
{
    // What always holds of a board is told with its events, and that no more pages stand in frames than there are with
    // their number.
    prove!(board.events() <= 1 << 63);
    prove!(paging.cache.len() <= paging.cache.cap().get());
    paging.flush(store)?;
    let changed = changed_words(alloc, store, image, &paging.held)?;
    let mut outcome = board.outcome()?;
    outcome.changed = Listed::new(changed);
    Ok(Paged {
        outcome,
        ins: paging.ins,
        outs: paging.outs,
    })
}
