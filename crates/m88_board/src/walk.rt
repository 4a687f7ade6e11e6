//! Walks along the letters of a run.

ghost use Rattle.std.specs.Prelude.{◌≡◌};
ghost use Rattle.m88_event.specs.Letters.{letter_at};
ghost use Rattle.m88_board.specs.Walks.{IsBounded};

use crate::board::Board;
use m88_event::{Letter, Schedule};

mod events;

/// A board on its way along the letters of a run: those of a schedule, and then `r` and `i` in turn. So many of them
/// are taken. The board is lent, moved by its own calls alone, and shown to a watch after each event.
#[derive(Drop)]
pub struct Walk<'a> {
    board: &'a mut Board,
    schedule: &'a Schedule<'a>,
    taken: usize,
    pub ghost bounded: { IsBounded schedule.now taken board.now },
}

impl<'a> Walk<'a> {
    /// A walk that begins with the first letter, on a board before its first event.
    pub fn new(board: &'a mut Board, schedule: &'a Schedule<'a>) -> Walk<'a>
        requires { board.old.events ≡ 0 }
        ensures board { result.board.now ≡ board.old }
        ensures lender { result.board.ghost_name ≡ board.entry.ghost_name }
        ensures schedule { result.schedule.now ≡ schedule.now }
        ensures taken { result.taken ≡ 0 }
    {
        prove!(board.events() == 0);
        prove!(schedule.len() <= 65_536);
        Walk {
            board,
            schedule,
            taken: 0,
        }
    }

    /// The board.
    pub fn board(&self) -> &Board
        ensures { result.now ≡ self.now.board.now }
    {
        &*self.board
    }

    /// The letter that comes next.
    pub fn letter(&self) -> Letter
        ensures { result ≡ letter_at self.now.schedule.now self.now.taken }
    {
        self.schedule.letter_at(self.taken)
    }
}
