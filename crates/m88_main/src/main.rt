//! The program `m88`: the top call between standard input and standard output. This is the trusted edge:
//! what a file, a pipe or a terminal gave or took is outside every promise, and so is what stands on standard error.
#![tactic(auto)]

mod forms;
#[cfg(test)]
mod tests;
mod usage;

use crate::forms::{form_of, wanted};
use crate::usage::{NoFile, Usage};
use m88_base::{StdSink, StdSource};
use m88_board::Unwatched;
use m88_cli::{Status, answer_command};
use m88_filter::{Filter, Keeping, Wanted, run, tell_refusal, tell_seen};
use std::path::Path;
use std::process::ExitCode;

/// The program.
struct M88;

impl Filter for M88 {
    fn name(&self) -> &'static str {
        "m88"
    }

    fn answer(&self, rt: &HostRuntime, words: &[String]) -> Status {
        let command = match words.first() {
            Some(word) => word.as_str(),
            None => "",
        };
        let wanted = form_of(command).map_or(Wanted::Bytes, |form| wanted(form));
        let shows_line = wanted == Wanted::Source;
        let mut source = Keeping::new(rt.alloc(), StdSource::new(rt.reader()), false);
        let mut sink = StdSink::new(rt.stdout());
        let mut watch = Unwatched::new();
        let answer = answer_command(rt.alloc(), words, &mut source, &mut sink, &mut watch);
        match answer.status {
            Status::Usage => tell_usage(rt, words),
            Status::Refused => {
                tell_refusal(rt, self.name(), command, &answer.refused, shows_line);
                tell_seen(rt, self.name(), source.front(), wanted);
            }
            _ => {}
        }
        answer.status
    }
}

fn main(rt: HostRuntime) -> ExitCode {
    run(&rt, &M88)
}

/// Tells what is wrong with words that are no command, and how to have a file read that one of them names.
fn tell_usage(rt: &HostRuntime, words: &[String]) {
    let usage = Usage::of(rt.alloc(), words);
    let _ = eprintln!(rt; "{usage}");
    for word in words {
        if usage.doubts(word.as_str()) && Path::new(word.as_str()).is_file(rt) {
            let advice = NoFile(word.as_str());
            let _ = eprintln!(rt; "{advice}");
            return;
        }
    }
}
