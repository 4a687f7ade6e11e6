//! Runs before a few frames: their reports, and how often pages come in and go out.

use crate::tests::examples::{
    DOUBLE, EXCHANGE, FOUR_LOADS, HALF_FAULT, HEX_DUMP, LATE_FAULT, LIST_WALK, LOOP, MEMORY_TEST,
    MERGE, PACKED, PRINT_A, REVERSE, SUM, TWO_MODES, TWO_MODULES,
};
use crate::tests::written;
use std::alloc::Global;
use std::process::Abort;
use std::test::Fail;

/// A number of frames, and how often pages come into them and go out.
type Counts = (u32, u32, u32);

/// A source, its limit, its absent pages and its schedule, and the counts of its run.
type Paged<'a> = (&'a [u8], &'a str, &'a str, &'a [Counts]);

/// The examples, and runs that touch one page after another.
const PAGED: &[Paged] = &[
    (DOUBLE, "3", "2 iir", &[(1, 1, 0), (2, 1, 0), (64, 1, 0)]),
    (
        EXCHANGE,
        "100",
        "2 iiir",
        &[(1, 1, 1), (2, 1, 1), (64, 1, 1)],
    ),
    (
        FOUR_LOADS,
        "5",
        "6 iiiirii",
        &[(1, 2, 0), (2, 2, 0), (64, 2, 0)],
    ),
    (
        HALF_FAULT,
        "100",
        "none ireiiriirerii",
        &[(1, 1, 1), (2, 1, 1), (64, 1, 1)],
    ),
    (
        HEX_DUMP,
        "400",
        "all -",
        &[(1, 1, 1), (2, 1, 1), (64, 1, 1)],
    ),
    (
        LATE_FAULT,
        "100",
        "5,6,7 iiiiiiir",
        &[(1, 3, 1), (2, 3, 1), (64, 3, 1)],
    ),
    (
        LIST_WALK,
        "100",
        "5,6,7,8 iiiiiriiiiiirriiiiiirriiiiiirr",
        &[(1, 4, 4), (2, 4, 4), (64, 4, 4)],
    ),
    (LOOP, "100", "none -", &[(1, 0, 0), (2, 0, 0), (64, 0, 0)]),
    (
        MEMORY_TEST,
        "400",
        "5,6 -",
        &[(1, 3, 3), (2, 2, 2), (64, 2, 2)],
    ),
    (
        MERGE,
        "1000",
        "all iiirrr",
        &[(1, 56, 24), (2, 56, 24), (3, 32, 16), (4, 4, 2), (64, 4, 2)],
    ),
    (PACKED, "100", "none -", &[(1, 1, 0), (2, 1, 0), (64, 1, 0)]),
    (
        PRINT_A,
        "100",
        "none -",
        &[(1, 0, 0), (2, 0, 0), (64, 0, 0)],
    ),
    (
        REVERSE,
        "1000",
        "none -",
        &[(1, 1, 1), (2, 1, 1), (64, 1, 1)],
    ),
    (
        SUM,
        "1000",
        "all iiirrr",
        &[(1, 1, 1), (2, 1, 1), (64, 1, 1)],
    ),
    (
        TWO_MODES,
        "100",
        "none -",
        &[(1, 1, 0), (2, 1, 0), (64, 1, 0)],
    ),
    (
        TWO_MODULES,
        "100",
        "none -",
        &[(1, 0, 0), (2, 0, 0), (64, 0, 0)],
    ),
    (
        b"ld r2,r0,0x5000\nld r3,r0,0x6000\nld r4,r0,0x5000\n",
        "3",
        "5 iiir",
        &[(1, 3, 0), (2, 2, 0), (64, 2, 0)],
    ),
    (
        b"or r4,r0,7\nst r4,r0,0x5000\nst r4,r0,0x6000\nld r5,r0,0x5000\n",
        "4",
        "5 iiir",
        &[(1, 3, 2), (2, 2, 2), (64, 2, 2)],
    ),
    (
        b"ld.d r2,r0,0x5FF8\nst.d r2,r0,0x6FF8\nld.b r4,r0,0x5FFF\n",
        "3",
        "6 iir",
        &[(1, 3, 1), (2, 2, 1)],
    ),
    (
        b"or r2,r0,1\nxmem r2,r0,0x5000\nld r3,r0,0x6000\nxmem.bu r3,r0,0x7001\n",
        "4",
        "none iiiiri",
        &[(1, 3, 2), (2, 3, 2), (3, 3, 2)],
    ),
    (
        b"ld r2,r0,0x5000\nld r2,r0,0x6000\nld r2,r0,0x5004\nld r2,r0,0x7000\n\
            ld r2,r0,0x5008\nld r2,r0,0x6004\n",
        "6",
        "none iriririririr",
        &[(1, 6, 0), (2, 4, 0), (3, 3, 0)],
    ),
    (
        b"or r2,r0,1\nst r2,r0,0x5000\nld r3,r0,0x6000\nld r4,r0,0x5000\nld r5,r0,0x7000\n",
        "5",
        "5,7 iiiiirr",
        &[(1, 4, 1), (2, 3, 1), (3, 3, 1)],
    ),
    (
        b"subu r2,r0,4\nld r3,r2,0\nld r4,r0,0\nst r4,r2,0\nld r5,r0,0x1000\n",
        "5",
        "0xFFFFF,0 iiiirr",
        &[(1, 4, 1), (2, 3, 1), (3, 3, 1)],
    ),
    (
        b"st r0,r0,0x5000\nst r0,r0,0x6001\n",
        "9",
        "none -",
        &[(1, 1, 1), (2, 1, 1)],
    ),
    (
        b"or r2,r0,1\nst r2,r0,0x5000\nst r2,r0,0x6000\nst r0,r0,0x5000\nst r2,r0,0x6000\n",
        "5",
        "none -",
        &[(1, 4, 4), (2, 2, 2)],
    ),
];

#[test]
fn frames_change_no_report(rt: HostRuntime) -> Result<(), Fail> {
    for (source, limit, way, counts) in PAGED {
        expect_paged(&rt, rt.alloc(), source, limit, way, counts)?;
    }
    Ok(())
}

/// Ends the test unless a source has its report of `run` before each number of frames, with the counts after it.
fn expect_paged(
    rt: &impl Abort,
    alloc: Global,
    source: &[u8],
    limit: &str,
    way: &str,
    counts: &[Counts],
) -> Result<(), Fail> {
    let words = format!(in alloc; "run {limit} {way}")?;
    let report = written(rt, alloc, words.as_str(), source)?;
    for (frames, ins, outs) in counts {
        let words = format!(in alloc; "page {frames} {limit} {way}")?;
        let text = format!(in alloc; "{report}frames {frames}\nins {ins}\nouts {outs}\n")?;
        let held = written(rt, alloc, words.as_str(), source)?;
        assert!(rt; held == text, "{words}: {held}");
    }
    Ok(())
}
