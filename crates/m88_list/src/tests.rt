//! What no clause says of the calls of the tool chain and no row of `m88_rows` holds. Here stand listings whose source
//! or sink fails; each other file has a subject of its own.

use m88_base::{MemSink, MemSource, Status};
use m88_listing::m88list;
use std::alloc::Global;
use std::test::Fail;

// inputs, outputs, texts and images
mod images;
mod streams;
mod texts;

// the assembly language
mod cutting;
mod statements;
mod tokens;

// objects
mod object_texts;

// S-records
mod loading;
mod srecords;

/// A call number that is never reached.
const NEVER: u32 = 4_000_000_000;

/// Labels at one address, and the names of `.set`.
const LABELS: &[u8] = b"b:\na: .word 0\n.set z,5\n.set y,4\n";

const LABELS_LISTED: &[u8] = b"      1  00001000                       b:\n\
\x20     2  00001000  00000000             a: .word 0\n\
\x20     3  00000005  =                    .set z,5\n\
\x20     4  00000004  =                    .set y,4\n\
\n\
labels\n\
00001000 text b main 1\n\
00001000 text a main 2\n\
\n\
numbers\n\
00000005 z main 3\n\
00000004 y main 4\n\
\n\
text 4 data 0 at 0 start 00001000\n";

/// The answer to a source whose call of this number fails, and what the sink then holds.
fn listed(
    alloc: Global,
    text: &[u8],
    reading: u32,
    writing: u32,
) -> Result<(Status, Vec<u8>), Fail> {
    let mut source = MemSource::new(alloc, text, 4096, &[reading])?;
    let mut sink = MemSink::new(alloc, 4096, 64, &[writing])?;
    let status = m88list(alloc, &[], &mut source, &mut sink);
    let held = Vec::from_slice(alloc, sink.bytes())?;
    Ok((status, held))
}

#[test]
fn failures(rt: HostRuntime) -> Result<(), Fail> {
    let rows: [(u32, u32, Status, usize); 4] = [
        (0, NEVER, Status::SourceFault, 0),
        (1, NEVER, Status::SourceFault, 0),
        (NEVER, 0, Status::SinkFault, 0),
        (NEVER, 1, Status::SinkFault, 64),
    ];
    for (reading, writing, status, count) in rows {
        let (answer, held) = listed(rt.alloc(), LABELS, reading, writing)?;
        assert!(rt; answer == status && held.len() == count);
        assert!(rt; LABELS_LISTED.starts_with(held.as_slice()));
    }
    Ok(())
}
