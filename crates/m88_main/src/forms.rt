//! How a person is told how a command is called. The table of the commands is that of `m88_cli`; what is taken is for
//! `m88_cli::command` to say.

use m88_cli::{FORMS, Form, MOST_FRAMES, MOST_LIMIT, MOST_STATEMENTS, Reads};
use m88_filter::Wanted;
use std::fmt;

/// A word after the name of a command.
#[derive(Clone, Copy, PartialEq, Eq, Debug)]
pub enum Place {
    Frames,
    Limit,
    Absent,
    Schedule,
    /// A schedule that may hand the board on.
    Turns,
    /// It may be left out, and stands last.
    Mode,
    Number,
    Count,
}

/// The form of the command of a name.
pub fn form_of(name: &str) -> Option<Form> {
    FORMS.iter().find(|form| form.0 == name).copied()
}

/// Whether a command reads anything.
pub fn reads_input(form: Form) -> bool {
    form.2 != Reads::Nothing
}

/// What it reads; lines of a source are those of a person, who wants to see the one at fault.
pub fn wanted(form: Form) -> Wanted {
    match form.2 {
        Reads::Source | Reads::Sources | Reads::Script | Reads::Trace => Wanted::Source,
        Reads::Records => Wanted::Records,
        Reads::Objects => Wanted::Objects,
        Reads::Nothing => Wanted::Bytes,
    }
}

/// The greatest number of words after its name.
pub fn most(form: Form) -> usize {
    if form.1.is_empty() {
        return 0;
    }
    form.1.split(" ").count()
}

/// The least number of them.
pub fn fewest(form: Form) -> usize {
    if form.1.ends_with("[mxm]") {
        most(form).saturating_sub(1)
    } else {
        most(form)
    }
}

/// The word, from 0, after its name.
pub fn place_at(form: Form, at: usize) -> Option<Place> {
    match form.1.split(" ").nth(at)? {
        "FRAMES" => Some(Place::Frames),
        "LIMIT" => Some(Place::Limit),
        "ABSENT" => Some(Place::Absent),
        "SCHEDULE" if form.0 == "share" => Some(Place::Turns),
        "SCHEDULE" => Some(Place::Schedule),
        "[mxm]" => Some(Place::Mode),
        "NUMBER" => Some(Place::Number),
        "COUNT" => Some(Place::Count),
        _ => None,
    }
}

/// How a word after a name is called.
pub fn place_name(place: Place) -> &'static str {
    match place {
        Place::Frames => "FRAMES",
        Place::Limit => "LIMIT",
        Place::Absent => "ABSENT",
        Place::Schedule | Place::Turns => "SCHEDULE",
        Place::Mode => "the word after SCHEDULE",
        Place::Number => "NUMBER",
        Place::Count => "COUNT",
    }
}

/// A word that is understood there.
pub fn sample_of(place: Place) -> &'static str {
    match place {
        Place::Limit | Place::Number => "0",
        Place::Absent => "none",
        Place::Schedule | Place::Turns => "-",
        Place::Mode => "mxm",
        Place::Frames | Place::Count => "1",
    }
}

/// What is understood there.
#[derive(Clone, Copy)]
pub struct Meaning(pub Place);

impl fmt::Display for Meaning {
    fn fmt<W: fmt::Write>(&self, f: &mut fmt::Formatter<W>) -> fmt::Result {
        match self.0 {
            Place::Frames => write!(f, "FRAMES is a decimal number from 1 to {MOST_FRAMES}"),
            Place::Limit => write!(f, "LIMIT is a decimal number from 0 to {MOST_LIMIT}"),
            Place::Absent => write!(
                f,
                "ABSENT is none, all, or 1 to 64 page numbers up to 1048575 (0xFFFFF), joined by commas"
            ),
            Place::Schedule => write!(f, "SCHEDULE is - or 1 to 65536 letters i, r and e"),
            Place::Turns => write!(
                f,
                "SCHEDULE of share is - or 1 to 65536 letters i, r, e and t"
            ),
            Place::Mode => write!(f, "mxm rounds misaligned addresses down"),
            Place::Number => write!(f, "NUMBER is a decimal number from 0 to 4294967295"),
            Place::Count => write!(f, "COUNT is a decimal number from 1 to {MOST_STATEMENTS}"),
        }
    }
}

/// How a command is called, in a line.
#[derive(Clone, Copy)]
pub struct Call(pub Form);

impl fmt::Display for Call {
    fn fmt<W: fmt::Write>(&self, f: &mut fmt::Formatter<W>) -> fmt::Result {
        let Form(name, words, reads) = self.0;
        write!(f, "m88 {name}")?;
        if !words.is_empty() {
            write!(f, " {words}")?;
        }
        f.write_str(input_name(reads))
    }
}

/// How what it reads is called there.
fn input_name(reads: Reads) -> &'static str {
    match reads {
        Reads::Nothing => "",
        Reads::Source => " < SOURCE",
        Reads::Sources => " < SOURCES",
        Reads::Script => " < SCRIPT-AND-SOURCE",
        Reads::Trace => " < SOURCE-AND-TRACE",
        Reads::Records => " < RECORDS",
        Reads::Objects => " < OBJECTS",
    }
}
