//! Traces of runs, taken by `check` after their source.

use crate::tests::examples::{
    DOUBLE, EXCHANGE, FOUR_LOADS, HALF_FAULT, HEX_DUMP, LATE_FAULT, LIST_WALK, LOOP, MEMORY_TEST,
    MERGE, PACKED, PRINT_A, REVERSE, SUM, TWO_MODES, TWO_MODULES,
};
use crate::tests::written;
use std::alloc::{AllocError, Global};
use std::test::Fail;

/// A program, the words that write its trace, and what `check` says of that.
type Counted<'a> = (&'a [u8], &'a str, &'a str);

/// The examples with the number of the lines of their traces.
const COUNTED: &[Counted] = &[
    (DOUBLE, "trace 3 2 iir", "ok 3\n"),
    (EXCHANGE, "trace 100 2 iiir", "ok 5\n"),
    (FOUR_LOADS, "trace 5 6 iiiirii", "ok 5\n"),
    (HALF_FAULT, "trace 100 none ireiiriirerii", "ok 6\n"),
    (HEX_DUMP, "trace 500 all -", "ok 500\n"),
    (LATE_FAULT, "trace 100 5,6,7 iiiiiiir", "ok 10\n"),
    (
        LIST_WALK,
        "trace 100 5,6,7,8 iiiiiriiiiiirriiiiiirriiiiiirr",
        "ok 29\n",
    ),
    (LOOP, "trace 100 none -", "ok 25\n"),
    (MEMORY_TEST, "trace 500 5,6 -", "ok 500\n"),
    (MERGE, "trace 1000 all iiirrr", "ok 183\n"),
    (PACKED, "trace 100 none -", "ok 3\n"),
    (PRINT_A, "trace 100 none -", "ok 5\n"),
    (REVERSE, "trace 1000 none -", "ok 111\n"),
    (SUM, "trace 1000 all iiirrr", "ok 59\n"),
    (TWO_MODES, "trace 100 none -", "ok 4\n"),
    (TWO_MODULES, "trace 100 none -", "ok 7\n"),
];

#[test]
fn what_trace_writes_is_checked(rt: HostRuntime) -> Result<(), Fail> {
    for (source, words, text) in COUNTED {
        let trace = written(&rt, rt.alloc(), words, source)?;
        let input = with_trace(rt.alloc(), source, trace.as_bytes())?;
        let held = written(&rt, rt.alloc(), "check", input.as_slice())?;
        assert!(rt; held.as_str() == *text, "{words}: {held}");
    }
    Ok(())
}

/// A source whose last line is ended, a line `trace`, and a text after it.
fn with_trace(alloc: Global, source: &[u8], text: &[u8]) -> Result<Vec<u8>, AllocError> {
    let mut input = Vec::from_slice(alloc, source)?;
    input.extend_from_slice(b"trace\n")?;
    input.extend_from_slice(text)?;
    Ok(input)
}
