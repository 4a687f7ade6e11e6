//! What a person is told where the words ask for nothing: which of them was not understood, and what is wanted.

use m88_filter::put_quoted;
use m88_sourcing::is_request;
use std::alloc::{AllocError, Global};
use std::fmt;

/// The version of this program, which manual page and changelog tell too.
const VERSION: &str = "1.0.0";

/// A word that says something.
#[derive(Clone, Copy, PartialEq, Eq)]
pub enum Place {
    /// Behind `at`.
    Address,
    /// By itself, or behind `fixed`.
    Places,
    /// Behind `vectors`, and behind that.
    First,
    Count,
    /// Behind `start`.
    Start,
}

/// What is wrong with words that ask for nothing.
#[derive(Clone, Copy)]
pub enum Usage<'a> {
    /// Help is asked for: which words there are.
    All,
    /// A word is not understood there.
    Word(Place, &'a str),
    /// A word is not there.
    Missing(Place),
    /// A start is said where no binary is read.
    Startless,
    /// A start is said twice.
    StartTwice,
    /// More is said than may be.
    TooMany,
}

impl<'a> Usage<'a> {
    pub fn of(alloc: Global, words: &'a [String]) -> Usage<'a> {
        let Some((first, behind)) = words.split_first() else {
            return Usage::All;
        };
        if first.as_str().starts_with("-") || first.as_str() == "help" {
            return Usage::All;
        }
        if first.as_str() != "at" {
            return of_hints(alloc, words, false);
        }
        match behind.split_first() {
            None => Usage::Missing(Place::Address),
            Some((word, hints)) => {
                if is_understood(alloc, word.as_str(), &[]) {
                    of_hints(alloc, hints, true)
                } else {
                    Usage::Word(Place::Address, word.as_str())
                }
            }
        }
    }
}

/// What is wrong with hints, behind `at` and an address or not.
fn of_hints(alloc: Global, words: &[String], is_binary: bool) -> Usage<'_> {
    let mut passed = 0;
    let mut starts = 0;
    for (at, word) in words.iter().enumerate() {
        if passed > 0 {
            passed -= 1;
            continue;
        }
        let places = places_behind(word.as_str());
        let (_, others) = words.split_at(at + 1);
        if let Some(usage) = wrong_hint(alloc, word.as_str(), places, others) {
            return usage;
        }
        if word.as_str() == "start" && starts < 2 {
            starts += 1;
        }
        passed = places.len();
    }
    if starts > 0 && !is_binary {
        Usage::Startless
    } else if starts > 1 {
        Usage::StartTwice
    } else {
        Usage::TooMany
    }
}

/// The words that stand behind one.
fn places_behind(word: &str) -> &'static [Place] {
    match word {
        "fixed" => &[Place::Places],
        "vectors" => &[Place::First, Place::Count],
        "start" => &[Place::Start],
        _ => &[],
    }
}

/// What is wrong with the hint that begins with a word, by the words behind it; None where it is understood.
fn wrong_hint<'a>(
    alloc: Global,
    word: &'a str,
    places: &'static [Place],
    behind: &'a [String],
) -> Option<Usage<'a>> {
    if places.is_empty() {
        return if is_understood(alloc, "0", &[word]) {
            None
        } else {
            Some(Usage::Word(Place::Places, word))
        };
    }
    let Some(first) = behind.first() else {
        return Some(Usage::Missing(places[0]));
    };
    if places.len() == 1 {
        return if is_understood(alloc, "0", &[word, first.as_str()]) {
            None
        } else {
            Some(Usage::Word(places[0], first.as_str()))
        };
    }
    if !is_understood(alloc, "0", &[word, first.as_str(), "1"]) {
        return Some(Usage::Word(places[0], first.as_str()));
    }
    match behind.get(1) {
        None => Some(Usage::Missing(places[1])),
        Some(second) if is_understood(alloc, "0", &[word, first.as_str(), second.as_str()]) => None,
        Some(second) => Some(Usage::Word(places[1], second.as_str())),
    }
}

/// Whether words are understood behind `at` and an address.
fn is_understood(alloc: Global, address: &str, hint: &[&str]) -> bool {
    match words_of(alloc, address, hint) {
        Ok(words) => is_request(words.as_slice()),
        Err(_) => false,
    }
}

/// The words `at`, an address and those of a hint.
fn words_of(alloc: Global, address: &str, hint: &[&str]) -> Result<Vec<String>, AllocError> {
    let mut words: Vec<String> = Vec::new(alloc);
    words.push(String::from_str(alloc, "at")?)?;
    words.push(String::from_str(alloc, address)?)?;
    for word in hint {
        words.push(String::from_str(alloc, word)?)?;
    }
    Ok(words)
}

/// How a word is called.
fn name_of(place: Place) -> &'static str {
    match place {
        Place::Address => "ADDRESS",
        Place::Places => "PLACES",
        Place::First => "A of vectors",
        Place::Count => "N of vectors",
        Place::Start => "A of start",
    }
}

/// What is understood there.
fn meaning_of(place: Place) -> &'static str {
    match place {
        Place::Address => "ADDRESS is a number",
        Place::Places => {
            "PLACES is A, A-B or A-B/STEP: A, A + STEP, .. up to B, with STEP 4 where none is said; 65536 addresses at most"
        }
        Place::First => "A of vectors is a number that is a multiple of 4",
        Place::Count => {
            "N of vectors is a number from 1 to 512, of vectors of eight bytes, none of them past 0xFFFFFFFF"
        }
        Place::Start => "A of start is a number",
    }
}

impl<'a> fmt::Display for Usage<'a> {
    fn fmt<W: fmt::Write>(&self, f: &mut fmt::Formatter<W>) -> fmt::Result {
        match *self {
            Usage::All => return put_all(f),
            Usage::Word(place, word) => {
                write!(f, "m88source: {} can't be ", name_of(place))?;
                put_quoted(f, word)?;
                write!(f, "\n{}", meaning_of(place))?;
            }
            Usage::Missing(place) => {
                write!(
                    f,
                    "m88source: {} is missing\n{}",
                    name_of(place),
                    meaning_of(place)
                )?;
            }
            Usage::Startless => f.write_str(
                "m88source: start is said of a binary, behind at ADDRESS",
            )?,
            Usage::StartTwice => f.write_str("m88source: start is said once")?,
            Usage::TooMany => {
                f.write_str(
                    "m88source: too many WORDS: they say at most 4096 things and 65536 addresses",
                )?;
            }
        }
        f.write_str("\n")?;
        put_calls(f)
    }
}

/// How the program is called.
fn put_calls<W: fmt::Write>(f: &mut fmt::Formatter<W>) -> fmt::Result {
    f.write_str("usage: m88source [WORDS] < RECORDS > SOURCE\n")?;
    f.write_str("       m88source at ADDRESS [WORDS] < BINARY > SOURCE\n")?;
    f.write_str(
        "WORDS are PLACES, fixed PLACES, vectors A N, and behind at ADDRESS start A, in any order",
    )
}

/// The version, how the program is called, and what its words are.
fn put_all<W: fmt::Write>(f: &mut fmt::Formatter<W>) -> fmt::Result {
    write!(
        f,
        "m88source {VERSION}: it reads standard input and opens no file\n"
    )?;
    put_calls(f)?;
    for place in [
        Place::Address,
        Place::Places,
        Place::First,
        Place::Count,
        Place::Start,
    ] {
        write!(f, "\n{}", meaning_of(place))?;
    }
    f.write_str("\nA number is below 2^32: decimal, or 0x and hexadecimal digits")
}
