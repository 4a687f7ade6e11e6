//! Schedules: the letters that a shared run begins with.

ghost use Rattle.std.specs.Prelude.{◌≡◌, ◌<◌, ◌≤◌, List, IfSome, Some, length, slice_get};
ghost use Rattle.m88_event.specs.Letters.{most_letters};
ghost use Rattle.m88_tasks.specs.Letters.{IsShareSchedule, share_letter_at, share_letter_of};
ghost use Rattle.m88_tasks.specs.declared.letter.ShareLetter.{ShareLetter as ShareLetterValue};

use crate::letter::ShareLetter;
use m88_event::{Letter, letters_in};
use std::marker::Model;

/// The letters that a shared run begins with, at most 65,536. It is lent the text that it was read from.
#[derive(Drop, Debug)]
pub struct ShareSchedule<'a> {
    letters: &'a [u8],
}

impl<'a> Model for ShareSchedule<'a> {
    ghost use Rattle.std.specs.Prelude.{List, ◌≤◌, length, map};
    ghost use Rattle.m88_event.specs.Letters.{AreLetters, most_letters};
    ghost use Rattle.m88_tasks.specs.Letters.{beside_own, share_letter_of};
    ghost use Rattle.m88_tasks.specs.declared.letter.ShareLetter.{ShareLetter as ShareLetterValue};

    ghost Value = { List ShareLetterValue };

    ghost view = { λ s. map share_letter_of s.letters.now };

    ghost invariant = { λ s. AreLetters beside_own s.letters.now
        × (length s.letters.now ≤ most_letters) };
}

impl<'a> ShareSchedule<'a> {
    /// The schedule of a text: no letter for `-`, else 1 to 65,536 letters `i`, `r`, `e` and `t`. None for any other
    /// text.
    pub fn read(text: &'a str) -> Option<ShareSchedule<'a>>
        ensures found { IfSome result (IsShareSchedule text.now) }
        ensures only { (letters : List ShareLetterValue)
            → IsShareSchedule text.now letters → result ≡ Some letters }
    {
        let letters = letters_in(text, b"t")?;
        Some(ShareSchedule { letters })
    }

    /// How many letters there are.
    pub fn len(&self) -> usize
        ensures value { result ≡ length self.now }
        ensures bound { result ≤ most_letters }
    {
        self.letters.len()
    }

    /// The letter at a place, from 0.
    pub fn letter(&self, index: usize) -> ShareLetter
        requires { index < length self.now }
        ensures { slice_get self.now index ≡ Some result }
    {
        letter_of(self.letters[index])
    }

    /// The letter of an event of a shared run, from 0: the schedule's, and behind it `r` and `i` in turn.
    pub fn letter_at(&self, k: usize) -> ShareLetter
        ensures { result ≡ share_letter_at self.now k }
    {
        if k < self.len() {
            self.letter(k)
        } else {
            ShareLetter::Own(Letter::in_turn(k - self.len()))
        }
    }
}

/// The letter of a byte: `t`, or that of the program that runs.
fn letter_of(byte: u8) -> ShareLetter
    ensures { result ≡ share_letter_of byte }
{
    if byte == b't' {
        ShareLetter::Turn
    } else {
        ShareLetter::Own(Letter::of_byte(byte))
    }
}
