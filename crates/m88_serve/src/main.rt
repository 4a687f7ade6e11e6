//! The program `m88serve`: the top call between standard input and standard output. This is the trusted edge: what a
//! file, a pipe or a terminal gave or took is outside every promise, and so is what stands on standard error.
#![tactic(auto)]

mod unnamed;

use crate::unnamed::Unnamed;
use m88_base::{Hex8, Status, StdSink, StdSource};
use m88_filter::{Filter, Keeping, Showing, Wanted, run, tell_refusal, tell_seen};
use m88_serving::serve_case;
use std::process::ExitCode;

/// The version of this program, which manual page and changelog tell too.
const VERSION: &str = "1.0.0";

/// How many lines are looked through for a record.
const MOST_LINES: usize = 100_000;

/// The program.
struct M88Serve;

impl Filter for M88Serve {
    fn name(&self) -> &'static str {
        "m88serve"
    }

    fn answer(&self, rt: &HostRuntime, words: &[String]) -> Status {
        let mut source = Keeping::new(rt.alloc(), StdSource::new(rt.reader()), true);
        let mut sink = Showing::new(rt.alloc(), StdSink::new(rt.stdout()));
        let answer = serve_case(rt.alloc(), words, &mut source, &mut sink);
        match answer.status {
            Status::Usage => tell_usage(rt),
            Status::Done => tell_unnamed(rt, source.front(), sink.front().unwrap_or(&[])),
            Status::Refused => {
                tell_refusal(rt, self.name(), "", &answer.refused, true);
                tell_seen(rt, self.name(), source.front(), Wanted::Fault);
                tell_record(rt, source.front());
            }
            _ => {}
        }
        answer.status
    }
}

fn main(rt: HostRuntime) -> ExitCode {
    run(&rt, &M88Serve)
}

/// Tells a person that there are no words.
fn tell_usage(rt: &HostRuntime) {
    let _ = eprintln!(rt;
        "m88serve {VERSION}: it takes no words and opens no file\nusage: m88serve < FAULT > SERVICE"
    );
}

/// Tells a person which words of transactions nobody gave.
fn tell_unnamed(rt: &HostRuntime, input: &[u8], service: &[u8]) {
    for word in Unnamed::of(input, service).taken {
        if let Some(word) = word {
            let word = Hex8(word);
            let _ = eprintln!(rt; "m88serve: no word was given for {word}: taken as 0");
        }
    }
}

/// Tells a person where the record of a fault begins in a text that has other lines before it.
fn tell_record(rt: &HostRuntime, input: &[u8]) {
    for (number, line) in (1..=MOST_LINES).zip(input.split(|byte| *byte == b'\n')) {
        if line.starts_with(b"epsr ") {
            if number > 1 {
                let _ = eprintln!(rt;
                    "m88serve: a record begins at line {number}: give its lines from there to t2, and lines mem"
                );
            }
            return;
        }
    }
}
