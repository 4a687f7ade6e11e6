//! What no clause says of the commands and no row of `m88_rows` holds: what one call makes of another's text, words too
//! long for a line, sources and sinks that fail, and what a watch is shown. Here stands what the files share.

use m88_base::{MemSink, MemSource};
use m88_board::{Unwatched, Watch};
use m88_cli::{Status, m88};
use std::alloc::{AllocError, Global};
use std::process::Abort;
use std::test::Fail;

mod examples;
mod failures;
mod limits;
mod paging;
mod tracing;
mod turns;
mod watching;

/// The text of a command that accepts its input; ends the test where it doesn't.
pub fn written(rt: &impl Abort, alloc: Global, line: &str, input: &[u8]) -> Result<String, Fail> {
    let (answer, held) = told(alloc, line, input)?;
    assert!(rt; answer == Status::Done, "{line} is answered {answer:?}");
    let text = String::from_utf8_lossy(alloc, held.as_slice())?;
    Ok(text)
}

/// What a line of words answers to an input, and what it writes.
pub fn told(alloc: Global, line: &str, input: &[u8]) -> Result<(Status, Vec<u8>), Fail> {
    let source = MemSource::new(alloc, input, 64, &[])?;
    let sink = MemSink::new(alloc, 30_000, 64, &[])?;
    let said = run(alloc, line, source, sink)?;
    Ok(said)
}

/// The answer to a line of words, and what the sink then holds.
pub fn run(
    alloc: Global,
    line: &str,
    source: MemSource,
    sink: MemSink,
) -> Result<(Status, Vec<u8>), AllocError> {
    let mut watch = Unwatched::new();
    run_watched(alloc, line, source, sink, &mut watch)
}

/// The same with a watch that is shown the boards.
pub fn run_watched<W: Watch>(
    alloc: Global,
    line: &str,
    mut source: MemSource,
    mut sink: MemSink,
    watch: &mut W,
) -> Result<(Status, Vec<u8>), AllocError> {
    let mut words = Vec::new(alloc);
    for word in line.split_whitespace() {
        words.push(String::from_str(alloc, word)?)?;
    }
    let status = m88(alloc, words.as_slice(), &mut source, &mut sink, watch);
    Ok((status, Vec::from_slice(alloc, sink.bytes())?))
}
