//! What the words of the program ask for.
ghost use Rattle.std.specs.Prelude.{◌≡◌, ◌≤◌, IfSome};
ghost use Rattle.m88_base.specs.Words.{texts};
ghost use Rattle.m88_supering.specs.Request.{IsFit, asked_for, most_steps, steps_in};

use m88_base::{first_word, number_in};

/// The most instructions of a handler that may be allowed.
const MOST_STEPS: u32 = 10_000_000;

/// The most digits of their number.
const MOST_DIGITS: usize = 8;

/// What is asked for.
#[derive(Clone, Copy)]
pub enum Request {
    /// One entry of a handler by a data fault, with up to so many instructions.
    Fault(u32),
}

/// What the words ask for; None where they ask for nothing.
#[tactic(auto, unfolding(crate::specs::Request::asked_for))]
pub(crate) fn asked_for(words: &[String]) -> Option<Request>
    ensures asked { result ≡ asked_for (texts words.now) }
    ensures fit { IfSome result IsFit }
{
    let (form, words) = first_word(words)?;
    let (steps, words) = first_word(words)?;
    if form != "fault" || !words.is_empty() {
        return None;
    }
    let steps = steps_in(steps.as_bytes())?;
    Some(Request::Fault(steps))
}

/// How many instructions a word allows.
fn steps_in(word: &[u8]) -> Option<u32>
    ensures value { result ≡ steps_in word.now }
    ensures most { IfSome result (λ steps. steps ≤ most_steps) }
{
    if word.len() <= MOST_DIGITS {
        number_in(10, word, MOST_STEPS)
    } else {
        None
    }
}
