//! What a watch is shown of each event: the count of events, the instructions retired, the transactions done, and the
//! next slot.

use crate::tests::run_watched;
use m88_base::{MemSink, MemSource};
use m88_board::MemWatch;
use m88_cli::Status;
use std::alloc::Global;
use std::process::Abort;
use std::test::Fail;

/// The events, the instructions retired, the transactions done, and the address and the marks V and E of the next slot.
type Shown = (u64, u32, u32, u32, bool, bool);

/// The words of a command, its input, and what a watch is shown.
type Watched<'a> = (&'a str, &'a [u8], &'a [Shown]);

/// The events that a watch is shown of commands.
const WATCHED: &[Watched] = &[
    (
        "run 3 5,6,7 iiir",
        b"ld r2,r0,0x5000\nld r3,r0,0x6000\nld r4,r0,0x7000\n",
        &[
            (1, 1, 0, 0x1004, true, false),
            (2, 2, 0, 0x1008, true, false),
            (3, 3, 0, 0x100C, true, true),
            (4, 3, 3, 0x100C, true, true),
        ],
    ),
    (
        "run 100 none -",
        b"or r2,r0,65\nor r9,r0,0x20\ntb0 0,r0,496\nor r9,r0,0x63\ntb0 0,r0,496\n",
        &[
            (1, 0, 0, 0x1000, true, false),
            (2, 1, 0, 0x1004, true, false),
            (3, 1, 0, 0x1004, true, false),
            (4, 2, 0, 0x1008, true, false),
            (5, 2, 0, 0x1008, true, false),
            (6, 3, 0, 0x100C, true, false),
            (7, 3, 0, 0x100C, true, false),
            (8, 4, 0, 0x1010, true, false),
            (9, 4, 0, 0x1010, true, false),
            (10, 4, 0, 0x1010, true, false),
        ],
    ),
    (
        "run 9 5 iiri",
        b"ld r2,r0,0x5000\nbr x\nor r3,r0,1\nx: or r4,r0,1\n",
        &[
            (1, 1, 0, 0x1004, true, false),
            (2, 2, 0, 0x1008, false, false),
            (3, 2, 1, 0x1008, false, false),
            (4, 2, 1, 0x100C, true, false),
            (5, 2, 1, 0x100C, true, false),
            (6, 3, 1, 0x1010, true, true),
            (7, 3, 1, 0x1010, true, true),
            (8, 3, 1, 0x1010, true, true),
        ],
    ),
    (
        "exec 2 2 iri",
        b"S00600004D38383C\nS30D000010001440200058600001B5\nS70500001000EA\n",
        &[
            (1, 1, 0, 0x1004, true, false),
            (2, 1, 1, 0x1004, true, false),
            (3, 2, 1, 0x1008, true, true),
        ],
    ),
    (
        "mon 5 ii",
        b"step 1\nstep 1\ndrain\ntrace 2\nsource\nld r2,r0,0x5000\nld r3,r0,0x5004\nor r4,r0,1\n",
        &[
            (1, 1, 0, 0x1004, true, false),
            (2, 2, 0, 0x1008, true, false),
            (3, 2, 2, 0x1008, true, false),
            (4, 2, 2, 0x1008, true, false),
            (5, 3, 2, 0x100C, true, true),
        ],
    ),
    (
        "mon none i",
        b"drain\nstep 1\npipe\ndrain\ngo\nsource\nld.d r2,r0,0x5000\nor r4,r2,1\n",
        &[
            (1, 1, 0, 0x1004, true, false),
            (2, 1, 1, 0x1004, true, false),
            (3, 1, 2, 0x1004, true, false),
            (4, 1, 2, 0x1004, true, false),
            (5, 2, 2, 0x1008, true, true),
            (6, 2, 2, 0x1008, true, true),
            (7, 2, 2, 0x1008, true, true),
        ],
    ),
    (
        "mon none iiiiri",
        b"trace 6\ndrain\nsource\nld r2,r0,0x5000\nld r3,r0,0x5004\nld r4,r0,0x5008\nld r5,r0,0x6000\n",
        &[
            (1, 1, 0, 0x1004, true, false),
            (2, 2, 0, 0x1008, true, false),
            (3, 3, 0, 0x100C, true, false),
            (4, 3, 0, 0x100C, true, false),
            (5, 3, 1, 0x100C, true, false),
            (6, 4, 1, 0x1010, true, true),
            (7, 4, 2, 0x1010, true, true),
            (8, 4, 3, 0x1010, true, true),
            (9, 4, 4, 0x1010, true, true),
        ],
    ),
    (
        "run 1 none ireer mxm",
        b"ld.d r2,r0,0x5003\n",
        &[
            (1, 1, 0, 0x1004, true, true),
            (2, 1, 1, 0x1004, true, true),
            (3, 1, 1, 0x1004, true, true),
            (4, 1, 1, 0x1004, true, true),
            (5, 1, 2, 0x1004, true, true),
        ],
    ),
    (
        "mon none ie mxm",
        b"step 2\ndrain\nsource\nld r2,r0,0x5001\n",
        &[
            (1, 1, 0, 0x1004, true, true),
            (2, 1, 0, 0x1004, true, true),
            (3, 1, 1, 0x1004, true, true),
        ],
    ),
    (
        "soak 0 2",
        b"",
        &[
            (1, 0, 0, 0x1000, true, false),
            (2, 1, 0, 0x1004, true, false),
            (3, 2, 0, 0x1008, true, true),
            (4, 2, 2, 0x1008, true, true),
        ],
    ),
    ("share 1 none -", b"or r2,r0,1\nprogram\n", &[]),
    ("emu 1 none -", b"or r2,r0,1\n", &[]),
    ("page 1 1 none -", b"or r2,r0,1\n", &[]),
    ("trace 1 none -", b"or r2,r0,1\n", &[]),
    ("check", b"or r2,r0,1\ntrace\n", &[]),
    ("build", b"or r2,r0,1\n", &[]),
    ("mon none -", b"pipe\nsource\n", &[]),
];

#[test]
fn a_watch_is_shown_each_event(rt: HostRuntime) -> Result<(), Fail> {
    expect_shown(&rt, rt.alloc(), WATCHED)
}

/// Ends the test unless each row's command is carried out and shows a watch what the row says.
fn expect_shown(rt: &impl Abort, alloc: Global, rows: &[Watched]) -> Result<(), Fail> {
    for (line, input, shown) in rows {
        let source = MemSource::new(alloc, input, 64, &[])?;
        let sink = MemSink::new(alloc, 1000, 64, &[])?;
        let mut watch = MemWatch::new();
        let (answer, _) = run_watched(alloc, line, source, sink, &mut watch)?;
        assert!(rt; answer == Status::Done, "{line} is answered {answer:?}");
        let seen = watch.seen();
        assert!(rt; seen.len() == shown.len(), "{line} shows {seen:?}");
        for (glance, (events, issued, done, addr, v, e)) in seen.iter().zip(*shown) {
            assert!(rt;
                glance.events == *events && glance.issued == *issued && glance.done == *done,
                "{line} shows {glance:?}"
            );
            assert!(rt;
                glance.next.addr == *addr && glance.next.v == *v && glance.next.e == *e,
                "{line} shows {glance:?}"
            );
        }
    }
    Ok(())
}
