//! Who is shown the board after each event.

ghost use Rattle.std.specs.Prelude.{List, [], ◌∷◌};
ghost use Rattle.std.specs.declared.option.Option.{Option};
ghost use Rattle.m88_board.specs.Glances.{Saw, glance_of};
ghost use Rattle.m88_board.specs.declared.glance.Glance.{Glance as GlanceValue};

use crate::board::Board;

/// Somebody who is shown the board after each event.
pub trait Watch {
    // The glances of the boards that it was shown, in order, where it tells them.
    ghost seen: { Self → Option (List GlanceValue) };

    /// Is shown the board after an event. It can't refuse, and takes no memory.
    fn after(&mut self, board: &Board)
        ensures { Saw (seen self.old) (seen self.new) (glance_of board.now ∷ []) };
}

/// A watch that does nothing and tells nothing.
#[derive(Drop, Debug)]
pub struct Unwatched;

impl Unwatched {
    /// Such a watch.
    pub fn new() -> Unwatched {
        Unwatched
    }
}

impl Watch for Unwatched {
    ghost use Rattle.std.specs.Prelude.{None};

    ghost seen = { λ w. None };

    fn after(&mut self, _board: &Board) {}
}
