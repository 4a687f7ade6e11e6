//! A program between standard input and standard output.

use crate::refusal::Marked;
use crate::seen::{Seen, Wanted};
use m88_base::{MOST_INPUT, Refused, Status};
use std::env;
use std::process::ExitCode;

/// The exit status where the words can't be had, which no call answers.
const NO_WORDS_STATUS: u8 = 7;

/// A program that answers its words and its standard input.
pub trait Filter {
    /// Its name, as a person types it.
    fn name(&self) -> &'static str;

    /// Answers its words, and tells a person on standard error what is wrong with them or with its input.
    fn answer(&self, rt: &HostRuntime, words: &[String]) -> Status;
}

/// Runs a program with the words of its process, and gives the exit status of that. Where nothing was answered, a
/// person is told why on standard error.
pub fn run<F: Filter>(rt: &HostRuntime, filter: &F) -> ExitCode {
    let name = filter.name();
    let Ok(arguments) = env::args(rt) else {
        let _ = eprintln!(rt; "{name}: the words can't be read");
        return ExitCode::from(NO_WORDS_STATUS);
    };
    let status = match arguments.skip(1).collect::<Vec<String>>(rt.alloc()) {
        Ok(words) => filter.answer(rt, words.as_slice()),
        Err(_) => Status::Memory,
    };
    tell(rt, name, status);
    ExitCode::from(status.number())
}

/// Tells a person why nothing was answered.
fn tell(rt: &HostRuntime, name: &str, status: Status) {
    let _ = match status {
        Status::Done | Status::Refused | Status::Usage => Ok(()),
        Status::SourceFault => eprintln!(rt; "{name}: standard input can't be read"),
        Status::SinkFault => eprintln!(rt; "{name}: standard output can't be written"),
        Status::Memory => eprintln!(rt; "{name}: there is not enough memory"),
        Status::TooLong => eprintln!(rt; "{name}: the input has more than {MOST_INPUT} bytes"),
    };
}

/// Tells a person where and why an input is refused; with `shows_line` the line there, where the refusal has one. The
/// command is the word behind the program's name; empty where there is none.
pub fn tell_refusal(
    rt: &HostRuntime,
    program: &str,
    command: &str,
    refused: &Option<Refused>,
    shows_line: bool,
) {
    if let Some(refused) = refused {
        let marked = Marked::of(program, command, refused, shows_line);
        let _ = eprintln!(rt; "{marked}");
    }
}

/// Tells a person what an input is that isn't what was wanted, by its front, where that can be seen.
pub fn tell_seen(rt: &HostRuntime, program: &str, front: &[u8], wanted: Wanted) {
    if let Some(seen) = Seen::of(front, wanted) {
        let _ = eprintln!(rt; "{program}: {seen}");
    }
}
