//! The letters of programs that share a board.

use m88_event::Letter;

/// What one event of a shared run tries, or does.
#[derive(Clone, Copy, PartialEq, Eq, Debug)]
pub enum ShareLetter {
    /// `i`, `r` or `e`: the letter of the program that runs.
    Own(Letter),
    /// `t`: an external interrupt, vector 1, by which the next program runs.
    Turn,
}
