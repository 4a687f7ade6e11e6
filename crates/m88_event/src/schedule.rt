//! Schedules: the letters that a run begins with.

ghost use Rattle.std.specs.Prelude.{◌≡◌, ◌<◌, ◌≤◌, List, IfSome, Some, length, slice_get};
ghost use Rattle.m88_event.specs.Letters.{IsSchedule, letter_at, most_letters};
ghost use Rattle.m88_event.specs.declared.letter.Letter.{Letter as LetterValue};

use crate::letter::Letter;
use crate::reading::letters_in;
use std::marker::Model;

/// The letters that a run begins with, at most 65,536. It is lent the text that it was read from.
#[derive(Drop, Debug)]
pub struct Schedule<'a> {
    letters: &'a [u8],
}

impl<'a> Model for Schedule<'a> {
    ghost use Rattle.std.specs.Prelude.{List, ◌≤◌, [], length, map};
    ghost use Rattle.m88_event.specs.Letters.{AreLetters, letter_of, most_letters};
    ghost use Rattle.m88_event.specs.declared.letter.Letter.{Letter as LetterValue};

    ghost Value = { List LetterValue };

    ghost view = { λ s. map letter_of s.letters.now };

    ghost invariant = { λ s. AreLetters [] s.letters.now × (length s.letters.now ≤ most_letters) };
}

impl<'a> Schedule<'a> {
    /// The schedule of a text: no letter for `-`, else 1 to 65,536 letters `i`, `r` and `e`. None for any other text.
    pub fn read(text: &'a str) -> Option<Schedule<'a>>
        ensures found { IfSome result (IsSchedule text.now) }
        ensures only { (letters : List LetterValue)
            → IsSchedule text.now letters → result ≡ Some letters }
    {
        let letters = letters_in(text, &[])?;
        Some(Schedule { letters })
    }

    /// How many letters there are.
    pub fn len(&self) -> usize
        ensures value { result ≡ length self.now }
        ensures bound { result ≤ most_letters }
    {
        self.letters.len()
    }

    /// The letter at a place, from 0.
    pub fn letter(&self, index: usize) -> Letter
        requires { index < length self.now }
        ensures { slice_get self.now index ≡ Some result }
    {
        Letter::of_byte(self.letters[index])
    }

    /// The letter of an event of a run, from 0: the schedule's, and behind it `r` and `i` in turn.
    pub fn letter_at(&self, k: usize) -> Letter
        ensures { result ≡ letter_at self.now k }
    {
        if k < self.len() {
            self.letter(k)
        } else {
            Letter::in_turn(k - self.len())
        }
    }
}
