//! Sources and sinks that fail, inputs that are as long as one may be and longer, and the numbers of the answers.

use crate::tests::run;
use m88_base::{MemSink, MemSource};
use m88_cli::Status;
use std::alloc::Global;
use std::process::Abort;
use std::test::Fail;

/// Puts the letter A out and ends.
const LETTER: &[u8] = b"or r2,r0,65\nor r9,r0,0x20\ntb0 0,r0,496\nor r9,r0,0x63\ntb0 0,r0,496\n";

const LETTER_REPORT: &[u8] = b"end exit at 00001010\nretired 4\n\
    r0 00000000 00000000 00000041 00000000 00000000 00000000 00000000 00000000\n\
    r8 00000000 00000063 00000000 00000000 00000000 00000000 00000000 00000000\n\
    r16 00000000 00000000 00000000 00000000 00000000 00000000 00000000 00000000\n\
    r24 00000000 00000000 00000000 00000000 00000000 00000000 00000000 00000000\ncarry 0\nout 41\nevents 10\n\
    answers 0\nfaults 0\n";

const NOTHING_ALLOWED: &[u8] = b"end limit\nretired 0\n\
    r0 00000000 00000000 00000000 00000000 00000000 00000000 00000000 00000000\n\
    r8 00000000 00000000 00000000 00000000 00000000 00000000 00000000 00000000\n\
    r16 00000000 00000000 00000000 00000000 00000000 00000000 00000000 00000000\n\
    r24 00000000 00000000 00000000 00000000 00000000 00000000 00000000 00000000\ncarry 0\nout -\nevents 0\n\
    answers 0\nfaults 0\n";

/// A call number that is never reached.
const NEVER: u32 = 4_000_000_000;

/// An input, the call of the source and that of the sink that fails, the bytes that the sink has room for, the
/// answer, and what the sink then holds.
type Failing<'a> = (&'a [u8], u32, u32, usize, Status, &'a [u8]);

/// Ends the test unless a run of no instruction is answered as each row says.
fn expect_answers(rt: &impl Abort, alloc: Global, rows: &[Failing]) -> Result<(), Fail> {
    for (input, reading, writing, room, status, text) in rows {
        let (answer, held) = answer_of(alloc, input, *reading, *writing, *room)?;
        assert!(rt;
            answer == *status && held.as_slice() == *text,
            "reading fails at {reading}, writing at {writing}, room {room}"
        );
    }
    Ok(())
}

/// The answer to a run of no instruction, and what the sink then holds.
fn answer_of(
    alloc: Global,
    input: &[u8],
    reading: u32,
    writing: u32,
    room: usize,
) -> Result<(Status, Vec<u8>), Fail> {
    let source = MemSource::new(alloc, input, 4096, &[reading])?;
    let sink = MemSink::new(alloc, room, 4, &[writing])?;
    let said = run(alloc, "run 0 none -", source, sink)?;
    Ok(said)
}

#[test]
fn a_source_or_a_sink_that_fails_is_told(rt: HostRuntime) -> Result<(), Fail> {
    expect_answers(
        &rt,
        rt.alloc(),
        &[
            (b"", 0, NEVER, 1000, Status::SourceFault, b""),
            (LETTER, 0, NEVER, 1000, Status::SourceFault, b""),
            (LETTER, 1, NEVER, 1000, Status::SourceFault, b""),
            (LETTER, 2, NEVER, 1000, Status::Done, NOTHING_ALLOWED),
            (b"", NEVER, 0, 1000, Status::SinkFault, b""),
            (b"", NEVER, 1, 1000, Status::SinkFault, b"end "),
            (b"", NEVER, NEVER, 6, Status::SinkFault, b"end li"),
            (b"foo", NEVER, 2, 1000, Status::SinkFault, b"refused "),
        ],
    )
}

#[test]
fn an_input_that_is_too_long_is_told(rt: HostRuntime) -> Result<(), Fail> {
    let long = vec![in rt.alloc(); b'\n'; 1_048_577]?;
    let input = long.as_slice();
    expect_answers(
        &rt,
        rt.alloc(),
        &[
            (
                &input[1..],
                NEVER,
                NEVER,
                1000,
                Status::Done,
                NOTHING_ALLOWED,
            ),
            (input, NEVER, NEVER, 1000, Status::TooLong, b""),
            (input, 1, NEVER, 1000, Status::SourceFault, b""),
        ],
    )
}

/// How many reads of at most seven bytes the 66 bytes of a source take, the one that finds its end among them, and how
/// many writes the 377 bytes of its report.
const READS: u32 = 11;

const WRITES: u32 = 54;

#[test]
fn each_read_that_fails_is_told(rt: HostRuntime) -> Result<(), Fail> {
    for call in 0..=READS {
        let source = MemSource::new(rt.alloc(), LETTER, 7, &[call])?;
        let sink = MemSink::new(rt.alloc(), 1000, 7, &[])?;
        let (answer, held) = run(rt.alloc(), "run 100 none -", source, sink)?;
        let fine = if call < READS {
            answer == Status::SourceFault && held.is_empty()
        } else {
            answer == Status::Done && held.as_slice() == LETTER_REPORT
        };
        assert!(rt; fine, "read {call}");
    }
    Ok(())
}

#[test]
fn each_write_that_fails_is_told(rt: HostRuntime) -> Result<(), Fail> {
    for call in 0..=WRITES {
        let source = MemSource::new(rt.alloc(), LETTER, 7, &[])?;
        let sink = MemSink::new(rt.alloc(), 1000, 7, &[call])?;
        let (answer, held) = run(rt.alloc(), "run 100 none -", source, sink)?;
        let front = (call as usize * 7).min(LETTER_REPORT.len());
        let fine = if call < WRITES {
            answer == Status::SinkFault
        } else {
            answer == Status::Done
        };
        assert!(rt;
            fine && held.as_slice() == &LETTER_REPORT[..front],
            "write {call}"
        );
    }
    let source = MemSource::new(rt.alloc(), LETTER, 7, &[])?;
    let sink = MemSink::new(rt.alloc(), 10, 100, &[])?;
    let (answer, held) = run(rt.alloc(), "run 100 none -", source, sink)?;
    assert!(rt; answer == Status::SinkFault && held.as_slice() == b"end exit a".as_slice());
    Ok(())
}

#[test]
fn each_status_has_its_number(rt: HostRuntime) {
    for (status, number) in NUMBERS {
        assert_eq!(rt; status.number(), *number);
    }
}

const NUMBERS: &[(Status, u8)] = &[
    (Status::Done, 0),
    (Status::Usage, 1),
    (Status::SourceFault, 2),
    (Status::SinkFault, 3),
    (Status::Refused, 4),
    (Status::Memory, 5),
    (Status::TooLong, 6),
];
