//! The next instruction of a board, as a line begins with it.

ghost use Rattle.std.specs.Prelude.{ℕ, Bool};
ghost use Rattle.m88_board.specs.Moves.{IsAt};
ghost use Rattle.m88_event.specs.Timeline.{Moment, Run};
ghost use Rattle.m88_isa.specs.Machine.{Program};
ghost use Rattle.m88_trace.specs.Inside.Running.{IsNext};

use m88_board::Board;

/// The next instruction of a board.
#[derive(Clone, Copy, Debug)]
pub struct Upcoming {
    /// How many were retired before it.
    pub number: u32,
    /// Its byte address.
    pub at: u32,
}

/// The next instruction of a board.
pub(crate) fn upcoming_on(board: &Board) -> Upcoming
    ensures { (r : Run) (m : Moment) → IsAt r m board.now
        → IsNext r.program m result }
{
    Upcoming {
        number: board.issued(),
        at: board.next_slot().addr,
    }
}
