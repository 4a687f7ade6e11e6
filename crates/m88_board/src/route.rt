//! Routes: which letters a board makes the events of, and when it stops.

ghost use Rattle.std.specs.Prelude.{ℕ, Bool, [], ◌≡◌, ◌≤◌, ◌+◌, false, is_none, IfNone, IfSome};
ghost use Rattle.m88_event.specs.Timeline.{Moment, Run};
ghost use Rattle.m88_isa.specs.Machine.{Program};
ghost use Rattle.m88_board.specs.Inside.Routes.{has_to_rest, letters_by, stops_at_moment, taken_before};
ghost use Rattle.m88_board.specs.Kept.{most_events};
ghost use Rattle.m88_board.specs.Moves.{IsAt};
ghost use Rattle.m88_board.specs.declared.route.Route.{Route as RouteValue};

use crate::board::Board;
use crate::until::Until;
use m88_event::{Letter, Schedule};

/// Which letters a board makes the events of, and when it stops.
#[derive(Clone, Copy)]
pub(crate) enum Route<'a> {
    /// The letters of a run behind those that are taken, until it is over or the walk is to stop before.
    Run {
        schedule: &'a Schedule<'a>,
        taken: usize,
        until: Until<'a>,
    },
    /// Letters `r`, until nothing is pending.
    Answers,
}

impl<'a> Route<'a> {
    /// The letter of the event after so many, or none where it stops there.
    // Inlined into the loop over the letters, each of whose callers knows the route.
    #[inline(always)]
    pub(crate) fn next(self, board: &Board, made: u64) -> Option<Letter>
        requires { taken_before self + made ≤ most_events }
        ensures letter { IfSome result (λ letter. letter ≡ letters_by self.entry made) }
        ensures going { IfSome result (λ letter. has_to_rest self.entry board.now ≡ false) }
        ensures answered { self.entry ≡ RouteValue.Answers
            → IfNone result (board.now.pending ≡ []) }
        ensures moment { (r : Run) (m : Moment) → IsAt r m board.now
            → is_none result ≡ stops_at_moment self.entry r made m }
    {
        match self {
            Route::Run {
                schedule,
                taken,
                until,
            } => {
                if until.is_enough(board, made) || board.is_over() {
                    return None;
                }
                Some(schedule.letter_at(taken + made as usize))
            }
            Route::Answers => {
                if board.is_pending() {
                    Some(Letter::Answer)
                } else {
                    None
                }
            }
        }
    }
}
