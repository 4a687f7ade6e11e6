//! When a walk stops.

ghost use Rattle.std.specs.Prelude.{ℕ, Bool, ◌≡◌, ◌==◌};
ghost use Rattle.std.specs.List.{list_any};
ghost use Rattle.m88_event.specs.Timeline.{Moment, Run};
ghost use Rattle.m88_isa.specs.Machine.{Program};
ghost use Rattle.m88_board.specs.Moves.{IsAt};
ghost use Rattle.m88_board.specs.Walks.{is_at_breakpoint, is_enough};

use crate::board::Board;

/// When a walk stops, if its run isn't over before.
#[derive(Clone, Copy, Debug)]
pub enum Until<'a> {
    /// Once the run is over.
    Over,
    /// After so many events.
    Made(u32),
    /// Behind an event, once the next instruction stands at one of these byte addresses of words.
    Breakpoint(&'a [u32]),
}

impl<'a> Until<'a> {
    /// Whether a walk is to go no further after so many events.
    pub(crate) fn is_enough(self, board: &Board, made: u64) -> bool
        ensures { (r : Run) (m : Moment) → IsAt r m board.now
            → result ≡ is_enough self.entry r.program made m }
    {
        match self {
            Until::Over => false,
            Until::Made(most) => made >= u64::from(most),
            Until::Breakpoint(addresses) => made > 0 && is_at(board, addresses),
        }
    }
}

/// Whether the next instruction stands at one of some byte addresses.
fn is_at(board: &Board, addresses: &[u32]) -> bool
    ensures { (r : Run) (m : Moment) → IsAt r m board.now
        → result ≡ is_at_breakpoint r.program addresses.now m }
{
    let next = board.next_slot();
    next.v && is_among(addresses, next.addr)
}

/// Whether an address is among others.
fn is_among(addresses: &[u32], address: u32) -> bool
    ensures { result ≡ list_any (λ a. a == address) addresses.now }
{
    addresses.iter().any(|a| *a == address)
}
