//! The program `m88source`: the top call between standard input and standard output. This is the trusted edge: what a
//! file, a pipe or a terminal gave or took is outside every promise, and so is what stands on standard error.
#![tactic(auto)]

mod usage;

use crate::usage::Usage;
use m88_base::{Status, StdSink, StdSource};
use m88_filter::{Filter, Keeping, Wanted, run, tell_refusal, tell_seen};
use m88_sourcing::source_input;
use std::process::ExitCode;

/// The program.
struct M88Source;

impl Filter for M88Source {
    fn name(&self) -> &'static str {
        "m88source"
    }

    fn answer(&self, rt: &HostRuntime, words: &[String]) -> Status {
        let is_binary = words.first().is_some_and(|word| word.as_str() == "at");
        let mut source = Keeping::new(rt.alloc(), StdSource::new(rt.reader()), false);
        let mut sink = StdSink::new(rt.stdout());
        let answer = source_input(rt.alloc(), words, &mut source, &mut sink);
        match answer.status {
            Status::Usage => tell_usage(rt, words),
            Status::Done if is_binary => tell_seen(rt, self.name(), source.front(), Wanted::Bytes),
            Status::Refused => {
                tell_refusal(rt, self.name(), "", &answer.refused, false);
                if !is_binary {
                    tell_seen(rt, self.name(), source.front(), Wanted::Records);
                }
            }
            _ => {}
        }
        answer.status
    }
}

fn main(rt: HostRuntime) -> ExitCode {
    run(&rt, &M88Source)
}

/// Tells a person what is wrong with words that ask for nothing.
fn tell_usage(rt: &HostRuntime, words: &[String]) {
    let usage = Usage::of(rt.alloc(), words);
    let _ = eprintln!(rt; "{usage}");
}
