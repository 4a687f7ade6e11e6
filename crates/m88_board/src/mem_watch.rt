//! A watch that keeps what it was shown.

ghost use Rattle.std.specs.Prelude.{◌≡◌, ◌∷◌, [], true, false};
ghost use Rattle.m88_board.specs.Glances.{Saw, glance_of, kept_after, told};

use crate::board::Board;
use crate::glance::Glance;
use crate::watch::Watch;
use m88_iunit::Slot;
use std::marker::Model;

/// How many glances a watch keeps.
const MOST_GLANCES: usize = 256;

/// What stands where no glance is kept.
const NO_GLANCE: Glance = Glance {
    events: 0,
    issued: 0,
    done: 0,
    next: Slot {
        addr: 0,
        v: false,
        e: false,
    },
};

/// A watch that keeps the first 256 glances, and tells what it saw as long as it was shown at most 256 boards.
#[derive(Drop, Debug)]
pub struct MemWatch {
    glances: [Glance; MOST_GLANCES],
    len: usize,
    whole: bool,
}

impl Model for MemWatch {
    ghost use Rattle.std.specs.Prelude.{◌≤◌, length, take};
    ghost use Rattle.m88_board.specs.Glances.{KeptGlances};

    ghost Value = { KeptGlances };

    ghost view = { λ w. record { glances = take w.len w.glances; whole = w.whole } };

    ghost invariant = { λ w. w.len ≤ 256 };
}

impl MemWatch {
    /// A watch that was shown nothing yet.
    pub fn new() -> MemWatch
        ensures { result ≡ record { glances = []; whole = true } }
    {
        MemWatch {
            glances: [NO_GLANCE; MOST_GLANCES],
            len: 0,
            whole: true,
        }
    }

    /// The glances that were kept, the first first.
    pub fn seen(&self) -> &[Glance]
        ensures { result.now ≡ self.now.glances }
    {
        &self.glances[..self.len]
    }
}

impl Watch for MemWatch {
    ghost seen = { told };

    fn after(&mut self, board: &Board)
        ensures kept { self.new ≡ kept_after (glance_of board.now) self.old }
        ensures saw { Saw (told self.old) (told self.new) (glance_of board.now ∷ []) }
    {
        if self.len == MOST_GLANCES {
            self.whole = false;
            return;
        }
        self.glances[self.len] = Glance {
            events: board.events(),
            issued: board.issued(),
            done: board.done(),
            next: board.next_slot(),
        };
        self.len += 1;
    }
}
