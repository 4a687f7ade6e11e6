//! The program `m88super`: the top call between standard input and standard output. This is the trusted edge: what a
//! file, a pipe or a terminal gave or took is outside every promise, and so is what stands on standard error.
#![tactic(auto)]

use m88_base::{Status, StdSink, StdSource};
use m88_filter::{Filter, Keeping, Wanted, run, tell_refusal, tell_seen};
use m88_supering::try_handler;
use std::process::ExitCode;

/// The version of this program, which manual page and changelog tell too.
const VERSION: &str = "1.0.0";

/// The program.
struct M88Super;

impl Filter for M88Super {
    fn name(&self) -> &'static str {
        "m88super"
    }

    fn answer(&self, rt: &HostRuntime, words: &[String]) -> Status {
        let mut source = Keeping::new(rt.alloc(), StdSource::new(rt.reader()), false);
        let mut sink = StdSink::new(rt.stdout());
        let answer = try_handler(rt.alloc(), words, &mut source, &mut sink);
        match answer.status {
            Status::Usage => tell_usage(rt),
            Status::Refused => {
                tell_refusal(rt, self.name(), "", &answer.refused, true);
                tell_seen(rt, self.name(), source.front(), Wanted::Fault);
            }
            _ => {}
        }
        answer.status
    }
}

fn main(rt: HostRuntime) -> ExitCode {
    run(&rt, &M88Super)
}

/// Tells a person which words there are.
fn tell_usage(rt: &HostRuntime) {
    let _ = eprintln!(rt;
        "m88super {VERSION}: STEPS is a decimal number from 0 to 10000000, the most instructions of the handler"
    );
    let _ = eprintln!(rt; "usage: m88super fault STEPS < FAULT-AND-HANDLER");
}
