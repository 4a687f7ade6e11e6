//! What the words of the program ask for.
ghost use Rattle.std.specs.Prelude.{◌≡◌, ◌∷◌, ◌↔◌, ◌++◌, [], ℕ, IfNone, IfSome, IsTrue, List, MatchOption, None, codes};
ghost use Rattle.m88_base.specs.Words.{texts};
ghost use Rattle.m88_sourcing.specs.Inside.Asked.{AreTallied, ReadsRequest};
ghost use Rattle.m88_sourcing.specs.Request.{AreFew, Asks, SayHints, Request as Asked};
ghost use Rattle.m88_sourcing.specs.declared.hint.Hint.{Hint as Kept};

use crate::hint::{Hint, first_hint};
use crate::place::number;
use m88_base::first_word;

/// The most hints.
const MOST_HINTS: usize = 4096;

/// The most addresses that they name at which code begins.
const MOST_ADDRESSES: usize = 65_536;

/// Where the bytes of a binary begin, and where it starts.
#[derive(Clone, Copy, PartialEq, Eq, Debug)]
pub(crate) struct Binary {
    pub at: u32,
    pub start: u32,
}

/// What is asked for.
#[derive(Clone, Copy)]
pub(crate) struct Request<'a> {
    /// None where S-records are read.
    pub binary: Option<Binary>,
    /// The words that say what is known of the image.
    pub words: &'a [String],
}

/// How many hints there are, how many addresses they name, and the start that they say.
#[derive(Clone, Copy)]
pub(crate) struct Tally {
    pub hints: usize,
    pub addresses: usize,
    pub start: Option<u32>,
}

/// How many there are with one hint more; None where that is one too many.
fn with_one_more(tally: Tally, hint: Hint) -> Option<Tally>
    ensures found { IfSome result (λ t. (hints : List Kept) → AreTallied hints tally
        → AreTallied (hints ++ hint ∷ []) t) }
    ensures only { IfNone result ((hints : List Kept) → AreTallied hints tally
        → ¬ AreFew (hints ++ hint ∷ [])) }
{
    let count = hint.addresses();
    if tally.hints >= MOST_HINTS || MOST_ADDRESSES.saturating_sub(tally.addresses) < count {
        return None;
    }
    let start = hint.start();
    if tally.start.is_some() && start.is_some() {
        return None;
    }
    Some(Tally {
        hints: tally.hints + 1,
        addresses: tally.addresses + count,
        start: start.or(tally.start),
    })
}

/// The hints that words say, counted; None where they say none, or too many.
fn tally_of(words: &[String]) -> Option<Tally>
    ensures found { IfSome result (λ t. (hints : List Kept) × SayHints (texts words.now) hints
        × AreTallied hints t) }
    ensures only { (hints : List Kept) → SayHints (texts words.now) hints
        → MatchOption result ⊥ (AreTallied hints) }
    ensures one { (a b : List Kept) → SayHints (texts words.now) a → SayHints (texts words.now) b
        → a ≡ b }
{
    let mut tally = Tally {
        hints: 0,
        addresses: 0,
        start: None,
    };
    let mut rest = words;
    while !rest.is_empty() {
        let leading = first_hint(rest)?;
        tally = with_one_more(tally, leading.hint)?;
        rest = leading.rest;
    }
    Some(tally)
}

/// The words behind `at`, where that is the first.
fn behind_at(words: &[String]) -> Option<&[String]>
    ensures some { IfSome result (λ rest. texts words.now
        ≡ codes "at" ∷ texts rest.now) }
    ensures none { result ≡ None → (rest : List (List ℕ))
        → texts words.now ≡ codes "at" ∷ rest → ⊥ }
{
    let (first, rest) = first_word(words)?;
    if first == "at" { Some(rest) } else { None }
}

/// What the words behind `at` ask for.
fn binary_request(words: &[String]) -> Option<Request<'_>>
    ensures { ReadsRequest (codes "at" ∷ texts words.now) result }
{
    let (word, rest) = first_word(words)?;
    let at = number(word.as_bytes())?;
    let tally = tally_of(rest)?;
    let binary = Binary {
        at,
        start: tally.start.unwrap_or(at),
    };
    Some(Request {
        binary: Some(binary),
        words: rest,
    })
}

/// What words that don't begin with `at` ask for.
fn record_request(words: &[String]) -> Option<Request<'_>>
    requires { (rest : List (List ℕ)) → texts words.now ≡ codes "at" ∷ rest → ⊥ }
    ensures { ReadsRequest (texts words.now) result }
{
    let tally = tally_of(words)?;
    if tally.start.is_some() {
        return None;
    }
    Some(Request {
        binary: None,
        words,
    })
}

/// What the words ask for: hints the source of S-records, and `at ADDRESS` and hints that of a binary. None for words
/// that ask for nothing.
pub(crate) fn asked_for(words: &[String]) -> Option<Request<'_>>
    ensures { ReadsRequest (texts words.now) result }
{
    match behind_at(words) {
        Some(rest) => binary_request(rest),
        None => record_request(words),
    }
}

/// Whether words ask for something.
pub fn is_request(words: &[String]) -> bool
    ensures { IsTrue result ↔ ((request : Asked) × Asks (texts words.now) request) }
{
    asked_for(words).is_some()
}
