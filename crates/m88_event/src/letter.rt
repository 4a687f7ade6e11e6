//! The letters of a schedule.

ghost use Rattle.std.specs.Prelude.{◌≡◌};
ghost use Rattle.m88_event.specs.Letters.{in_turn, letter_of};

/// What one event of a run tries, or does.
#[derive(Clone, Copy, PartialEq, Eq, Debug)]
pub enum Letter {
    /// `i`: to issue the next instruction.
    Issue,
    /// `r`: to answer the oldest transaction that is pending.
    Answer,
    /// `e`: to make every page absent.
    Evict,
}

impl Letter {
    /// The letter of a byte: `i`, `e`, and `r` for any other.
    pub fn of_byte(byte: u8) -> Letter
        ensures { result ≡ letter_of byte }
    {
        if byte == b'i' {
            Letter::Issue
        } else if byte == b'e' {
            Letter::Evict
        } else {
            Letter::Answer
        }
    }

    /// The letter of an event behind a schedule, from 0: `r` and `i` in turn.
    pub fn in_turn(event: usize) -> Letter
        ensures { result ≡ in_turn event }
    {
        if event % 2 == 0 {
            Letter::Answer
        } else {
            Letter::Issue
        }
    }
}
