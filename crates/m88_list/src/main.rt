//! The program `m88list`: the top call between standard input and standard output. This is the trusted edge: what a
//! file, a pipe or a terminal gave or took is outside every promise, and so is what stands on standard error.
#![tactic(auto)]

#[cfg(test)]
mod tests;

use m88_base::{Status, StdSink, StdSource};
use m88_filter::{Filter, Keeping, Wanted, run, tell_refusal, tell_seen};
use m88_listing::list_source;
use std::process::ExitCode;

/// The version of this program, which manual page and changelog tell too.
const VERSION: &str = "1.0.0";

/// The program.
struct M88List;

impl Filter for M88List {
    fn name(&self) -> &'static str {
        "m88list"
    }

    fn answer(&self, rt: &HostRuntime, words: &[String]) -> Status {
        let mut source = Keeping::new(rt.alloc(), StdSource::new(rt.reader()), false);
        let mut sink = StdSink::new(rt.stdout());
        let answer = list_source(rt.alloc(), words, &mut source, &mut sink);
        match answer.status {
            Status::Usage => tell_usage(rt),
            Status::Refused => {
                tell_refusal(rt, self.name(), "", &answer.refused, true);
                tell_seen(rt, self.name(), source.front(), Wanted::Source);
            }
            _ => {}
        }
        answer.status
    }
}

fn main(rt: HostRuntime) -> ExitCode {
    run(&rt, &M88List)
}

/// Tells a person that there are no words.
fn tell_usage(rt: &HostRuntime) {
    let _ = eprintln!(rt;
        "m88list {VERSION}: it takes no words and opens no file\nusage: m88list < SOURCE > LISTING"
    );
}
