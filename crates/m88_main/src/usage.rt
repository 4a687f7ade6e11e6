//! What a person is told where the words are no command: which of them was not understood, and what is wanted.

use crate::forms::{
    Call, Meaning, Place, fewest, form_of, most, place_at, place_name, reads_input, sample_of,
};
use m88_cli::{FORMS, Form, command};
use m88_filter::put_shown;
use std::alloc::{AllocError, Global};
use std::fmt;

/// The version of this program, which manual page and changelog tell too.
const VERSION: &str = "1.0.0";

/// What is wrong with words that are no command.
#[derive(Drop)]
pub enum Usage<'a> {
    /// There are none, or help is asked for: how each command is called.
    All,
    /// The first is no command's name.
    Name(&'a str),
    /// After the name of a command stand too many words or too few: how many there are.
    Count(Form, usize),
    /// A word after the name of a command is not understood there.
    Word(Form, Place, &'a str),
}

impl<'a> Usage<'a> {
    pub fn of(alloc: Global, words: &'a [String]) -> Usage<'a> {
        let Some((name, others)) = words.split_first() else {
            return Usage::All;
        };
        if name.as_str().starts_with("-") || name.as_str() == "help" {
            return Usage::All;
        }
        let Some(form) = form_of(name.as_str()) else {
            return Usage::Name(name.as_str());
        };
        if others.len() < fewest(form) || others.len() > most(form) {
            return Usage::Count(form, others.len());
        }
        for (at, word) in others.iter().enumerate() {
            let Some(place) = place_at(form, at) else {
                break;
            };
            if !matches!(is_understood(alloc, form, at, word.as_str()), Ok(true)) {
                return Usage::Word(form, place, word.as_str());
            }
        }
        Usage::All
    }

    /// Whether a word of the call is one that may be wrong, and so the name of a file that was meant to be read.
    pub fn doubts(&self, word: &str) -> bool {
        match self {
            Usage::All => false,
            Usage::Name(_) => true,
            Usage::Count(form, _) => reads_input(*form) && word != form.0,
            Usage::Word(form, _, wrong) => reads_input(*form) && word == *wrong,
        }
    }
}

/// What to write in place of the name of a file.
#[derive(Clone, Copy)]
pub struct NoFile<'a>(pub &'a str);

impl<'a> fmt::Display for NoFile<'a> {
    fn fmt<W: fmt::Write>(&self, f: &mut fmt::Formatter<W>) -> fmt::Result {
        f.write_str("m88 reads standard input and opens no file: write < ")?;
        put_word(f, self.0)
    }
}

/// Whether a word is understood in one of a form's places: whether there is a command with it and words that are
/// understood in the others.
fn is_understood(alloc: Global, form: Form, at: usize, word: &str) -> Result<bool, AllocError> {
    let mut words: Vec<String> = Vec::new(alloc);
    words.push(String::from_str(alloc, form.0)?)?;
    for k in 0..most(form) {
        let text = match place_at(form, k) {
            Some(place) if k != at => sample_of(place),
            _ => word,
        };
        words.push(String::from_str(alloc, text)?)?;
    }
    Ok(command(words.as_slice()).is_some())
}

impl<'a> fmt::Display for Usage<'a> {
    fn fmt<W: fmt::Write>(&self, f: &mut fmt::Formatter<W>) -> fmt::Result {
        match self {
            Usage::All => put_all(f),
            Usage::Name(name) => {
                f.write_str("m88: no command is named ")?;
                put_word(f, name)?;
                f.write_str("\n")?;
                put_all(f)
            }
            Usage::Count(form, count) => {
                write!(f, "m88 {}: it takes {}", form.0, fewest(*form))?;
                if fewest(*form) < most(*form) {
                    write!(f, " or {}", most(*form))?;
                }
                write!(
                    f,
                    " words after its name, not {count}\nusage: {}",
                    Call(*form)
                )
            }
            Usage::Word(form, place, word) => {
                write!(f, "m88 {}: {} can't be ", form.0, place_name(*place))?;
                put_word(f, word)?;
                write!(f, "\n{}\nusage: {}", Meaning(*place), Call(*form))
            }
        }
    }
}

/// The version, how every command is called, a command a line, and what its words are.
fn put_all<W: fmt::Write>(f: &mut fmt::Formatter<W>) -> fmt::Result {
    write!(f, "m88 {VERSION}\nusage:")?;
    for form in &FORMS {
        write!(f, "\n  {}", Call(*form))?;
    }
    for place in [
        Place::Frames,
        Place::Limit,
        Place::Absent,
        Place::Schedule,
        Place::Turns,
        Place::Mode,
        Place::Number,
        Place::Count,
    ] {
        write!(f, "\n{}", Meaning(place))?;
    }
    Ok(())
}

/// How many bytes of a word are shown.
const WIDTH: usize = 40;

/// A word in quotes as a terminal can show it; the front of a long one.
fn put_word<W: fmt::Write>(f: &mut fmt::Formatter<W>, word: &str) -> fmt::Result {
    let bytes = word.as_bytes();
    f.write_str("'")?;
    put_shown(f, &bytes[..bytes.len().min(WIDTH)])?;
    f.write_str(if bytes.len() > WIDTH { "..'" } else { "'" })
}
