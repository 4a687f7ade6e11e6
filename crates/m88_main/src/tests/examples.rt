//! The programs of the folder examples, without their comments, but for the two that share a board and the ROM: each runs
//! from its source, from its records and by way of its objects, with one report, and a line of it is held here.

use crate::tests::told;
use m88_cli::Status;
use std::alloc::Global;
use std::process::Abort;
use std::test::Fail;

/// A source, the words that run it and that run its records, and a line of the report.
type Example<'a> = (&'a [u8], &'a str, &'a str, &'a str);

pub const DOUBLE: &[u8] = b"_start: ld.d r2,r0,lo16(pair)\naddu r4,r2,r0\naddu r5,r2,r3\n\
    .data\npair: .word 0x11223344,0x55667788\n";

pub const EXCHANGE: &[u8] = b"_start: or r2,r0,1\nagain: xmem r2,r0,lo16(lock)\nbcnd ne0,r2,again\n\
    or r9,r0,0x63\ntb0 0,r0,496\n.data\nlock: .word 0\n";

pub const FOUR_LOADS: &[u8] =
    b"_start: ld r2,r0,0x5000\nld r3,r0,0x5004\nld r4,r0,0x5008\nld r5,r0,0x6000\n\
    addu r6,r2,r5\n.at 0x5000\n.word 1,2,3\n.at 0x6000\n.word 4\n";

pub const HALF_FAULT: &[u8] =
    b"_start: ld.d r2,r0,lo16(pair)\naddu r4,r2,r0\naddu r5,r2,r3\nst.d r4,r0,lo16(sums)\nor r9,r0,0x63\n\
    tb0 0,r0,496\n.data\npair: .word 0x11223344,0x55667788\nsums: .word 0,0\n";

pub const HEX_DUMP: &[u8] =
    b"_start: or.u r31,r0,hi16(stack)\nor r31,r31,lo16(stack)\nor.u r20,r0,hi16(bytes)\n\
    or r20,r20,lo16(bytes)\naddu r21,r20,32\nline: bsr.n word\nor r2,r20,r0\nor r22,r0,8\n\
    next: bsr.n put\nor r2,r0,' '\nbsr.n byte\nld.bu r2,r20,0\naddu r20,r20,1\nsubu r22,r22,1\n\
    bcnd ne0,r22,next\nbsr.n put\nor r2,r0,'\\n'\ncmp r10,r20,r21\nbb1 lo,r10,line\nor r9,r0,0x63\n\
    tb0 0,r0,496\nword: subu r31,r31,16\nst r1,r31,0\nst r24,r31,4\nst r25,r31,8\nor r24,r2,r0\n\
    or r25,r0,4\nw1: bsr.n byte\nextu r2,r24,8<24>\nsubu r25,r25,1\nbcnd.n ne0,r25,w1\n\
    mak r24,r24,24<8>\nld r1,r31,0\nld r24,r31,4\nld r25,r31,8\njmp.n r1\naddu r31,r31,16\n\
    byte: subu r31,r31,16\nst r1,r31,0\nst r2,r31,4\nbsr.n digit\nextu r2,r2,4<4>\nld r2,r31,4\n\
    bsr.n digit\nand r2,r2,15\nld r1,r31,0\njmp.n r1\naddu r31,r31,16\ndigit: cmp r10,r2,10\n\
    bb1.n lo,r10,put\naddu r2,r2,'0'\naddu r2,r2,7\nput: or r9,r0,0x20\ntb0 0,r0,496\njmp r1\n.data\n\
    bytes: .ascii \"MC88100\\n\"\n.word 0,1,0x12345678,0x80000000\n.half -1,0xABCD\n.byte 1,2,3,4\n\
    .zero 64\nstack: .align 4\n";

pub const LATE_FAULT: &[u8] =
    b"_start: or r4,r0,7\nld r2,r0,0x5000\nbr.n over\nst r4,r0,0x6000\nor r5,r0,1\n\
    over: or r4,r0,9\nld.b r3,r0,0x7001\nbr join\nor r5,r0,2\njoin: addu r6,r2,r3\nor r9,r0,0x63\ntb0 0,r0,496\n\
    .at 0x5000\n.word 0x11223344\n.at 0x7000\n.byte 1,0x80,3,4\n";

pub const LIST_WALK: &[u8] =
    b"_start: or.u r10,r0,hi16(first)\nor r10,r10,lo16(first)\nor r12,r0,0\nwalk: ld r11,r10,0\n\
    ld r13,r10,4\naddu r12,r12,r13\nst r12,r10,8\nbcnd.n ne0,r11,walk\nor r10,r11,r0\nor r9,r0,0x63\n\
    tb0 0,r0,496\n.at 0x5000\nfirst: .word third,10,0\n.at 0x6FF0\nsecond: .word 0,40,0\n.at 0x7000\n\
    third: .word fourth,20,0\n.at 0x8008\nfourth: .word second,30,0\n";

pub const LOOP: &[u8] =
    b"_start: or r2,r0,'A'\nor r9,r0,0x20\nor r3,r0,5\nloop: tb0 0,r0,496\nsubu r3,r3,1\n\
    bcnd.n ne0,r3,loop\naddu r2,r2,1\nor r9,r0,0x63\ntb0 0,r0,496\n";

pub const MEMORY_TEST: &[u8] =
    b".set low,0x5F80\n.set high,0x6080\n_start: or r10,r0,lo16(low)\nor r11,r0,lo16(high)\n\
    fill: st r10,r10,0\naddu r10,r10,4\ncmp r14,r10,r11\nbb1 lo,r14,fill\nbsr mark\n\
    or r10,r0,lo16(low)\nturn: ld r13,r10,0\ncmp r14,r13,r10\nbb0 eq,r14,bad\nxor.c r15,r13,r0\n\
    st r15,r10,0\naddu r10,r10,4\ncmp r14,r10,r11\nbb1 lo,r14,turn\nbsr mark\nor r12,r0,lo16(low)\n\
    or r10,r0,lo16(high)\nclear: subu r10,r10,4\nld r13,r10,0\nxor.c r15,r13,r0\ncmp r14,r15,r10\n\
    bb0 eq,r14,bad\nst r0,r10,0\ncmp r14,r12,r10\nbb1 lo,r14,clear\nbsr mark\nbr end\n\
    bad: or r2,r0,'!'\nor r9,r0,0x20\ntb0 0,r0,496\nend: or r9,r0,0x63\ntb0 0,r0,496\n\
    mark: or r2,r0,'.'\nor r9,r0,0x20\ntb0 0,r0,496\njmp r1\n";

pub const MERGE: &[u8] = b"_start: or r10,r0,lo16(one)\nor r11,r0,lo16(two)\nor r12,r0,lo16(both)\n\
    or r13,r0,lo16(count)\nor r14,r0,16\nnext: ld r2,r10,0\nld r3,r11,0\ncmp r4,r2,r3\n\
    bb1.n hi,r4,second\nsubu r14,r14,1\nst r2,r12,0\nbr.n more\naddu r10,r10,4\n\
    second: st r3,r12,0\naddu r11,r11,4\nld r5,r13,0\naddu r5,r5,1\nst r5,r13,0\n\
    more: bcnd.n ne0,r14,next\naddu r12,r12,4\nor r9,r0,0x63\ntb0 0,r0,496\n.at 0x5000\n\
    one: .word 2,3,5,7,11,13,17,19,-1\n.at 0x6000\ntwo: .word 1,4,9,16,25,36,49,64,-1\n\
    .at 0x7000\nboth: .zero 64\n.at 0x8000\ncount: .word 0\n";

pub const PACKED: &[u8] = b"_start: or r10,r0,lo16(packet)\nld.bu r2,r10,0\nld.h r3,r10,1\n\
    ld.h r4,r10,3\nld.h r5,r10,5\naddu r6,r3,r4\naddu r6,r6,r5\ndiv r7,r6,r2\nst r7,r10,7\n\
    or r9,r0,0x63\ntb0 0,r0,496\n.data\npacket: .byte 3\n.byte 0xFF,0xEC\n.byte 0x00,0x05\n\
    .byte 0xFF,0xFC\n.zero 4\n";

pub const PRINT_A: &[u8] =
    b"or r2,r0,65\nor r9,r0,0x20\ntb0 0,r0,496\nor r9,r0,0x63\ntb0 0,r0,496\n";

pub const REVERSE: &[u8] =
    b".module main\n_start: or.u r2,r0,hi16(text)\nor r2,r2,lo16(text)\nbsr.n reverse\nor r3,r0,11\n\
    or.u r10,r0,hi16(text)\nor r10,r10,lo16(text)\nor r11,r0,11\nor r9,r0,0x20\nnext: ld.bu r2,r10,0\n\
    tb0 0,r0,496\nsubu r11,r11,1\nbcnd.n ne0,r11,next\naddu r10,r10,1\nor r9,r0,0x63\ntb0 0,r0,496\n\
    .data\ntext: .ascii \"late faults\"\n.module strings\n.global reverse\nreverse: addu r3,r2,r3\n\
    br test\nswap: ld.bu r4,r2,0\nld.bu r5,r3,0\nst.b r5,r2,0\nst.b r4,r3,0\naddu r2,r2,1\n\
    test: subu r3,r3,1\ncmp r6,r2,r3\nbb1 lo,r6,swap\njmp r1\n";

pub const SUM: &[u8] =
    b"_start: or.u r10,r0,hi16(tab)\nor r10,r10,lo16(tab)\nor r11,r0,10\nor r12,r0,0\n\
    loop: ld r13,r10,0\naddu r10,r10,4\nsubu r11,r11,1\nbcnd.n ne0,r11,loop\naddu r12,r12,r13\n\
    or.u r14,r0,hi16(sum)\nor r14,r14,lo16(sum)\nst r12,r14,0\nor r9,r0,0x63\ntb0 0,r0,496\n\
    .data\ntab: .word 1,2,3,4,5,6,7,8,9,10\nsum: .word 0\n";

pub const TWO_MODULES: &[u8] =
    b".module main\n_start: bsr.n put\nor r2,r0,'A'\nor r9,r0,0x63\ntb0 0,r0,496\n\
    .module output\n.global put\nput: or r9,r0,0x20\ntb0 0,r0,496\njmp r1\n";

pub const TWO_MODES: &[u8] =
    b"_start: or r10,r0,lo16(bytes+7)\nor r11,r0,1\nld.bu r2,r10,0\nld.hu r3,r10,0\nld r4,r10,0\nld r5,r10[r11]\n\
    ld.d r6,r10,0\nst.h r2,r10,6\nor r9,r0,0x63\ntb0 0,r0,496\n.data\n\
    bytes: .word 0x10111213,0x14151617,0x18191A1B,0\n";

/// Each source with the words that run it and those that run its records, and a line of the report.
const EXAMPLES: &[Example] = &[
    (
        DOUBLE,
        "run 3 2 iir",
        "exec 3 2 iir",
        "\nt0 0000213D 00000000 00002000\n",
    ),
    (
        EXCHANGE,
        "run 100 2 iiir",
        "exec 100 2 iiir",
        "\nt1 0000103F 00000001 00002000\n",
    ),
    (
        FOUR_LOADS,
        "run 5 6 iiiirii",
        "exec 5 6 iiiirii",
        "\nfault 1 event 12\n",
    ),
    (
        HALF_FAULT,
        "run 100 none ireiiriirerii",
        "exec 100 none ireiiriirerii",
        "\nt0 0000003F 6688AACC 0000200C\n",
    ),
    (
        HEX_DUMP,
        "run 10000 all -",
        "exec 10000 all -",
        "\nout 30303030323030302034442034332033382033382033312033302033302030410A30303030323030\
            382030302030302030302030302030302030302030302030310A3030303032303130203132203334\
            2035362037382038302030302030302030300A303030303230313820464620464620414220434420\
            30312030322030332030340A\n",
    ),
    (
        LATE_FAULT,
        "run 100 5,6,7 iiiiiiir",
        "exec 100 5,6,7 iiiiiiir",
        "\nt2 000001D1 00000000 00007000\n",
    ),
    (
        LIST_WALK,
        "run 100 5,6,7,8 iiiiiriiiiiirriiiiiirriiiiiirr",
        "exec 100 5,6,7,8 iiiiiriiiiiirriiiiiirriiiiiirr",
        "\nmem 00006FF8 00000064\n",
    ),
    (
        LOOP,
        "run 100 none -",
        "exec 100 none -",
        "\nout 4142434445\n",
    ),
    (
        MEMORY_TEST,
        "run 10000 5,6 -",
        "exec 10000 5,6 -",
        "\nout 2E2E2E\n",
    ),
    (
        MERGE,
        "run 1000 5,6,7,8 iiiiriirr",
        "exec 1000 5,6,7,8 iiiiriirr",
        "\nmem 00007024 00000010\n",
    ),
    (
        PACKED,
        "run 100 none -",
        "exec 100 none -",
        "end vector 4 at 00001008\n",
    ),
    (PRINT_A, "run 100 none -", "exec 100 none -", "\nout 41\n"),
    (
        REVERSE,
        "run 1000 none -",
        "exec 1000 none -",
        "\nout 73746C756166206574616C\n",
    ),
    (
        SUM,
        "run 1000 all iiirrr",
        "exec 1000 all iiirrr",
        "\nmem 00002028 00000037\n",
    ),
    (
        TWO_MODES,
        "run 100 none -",
        "exec 100 none -",
        "end vector 4 at 0000100C\n",
    ),
    (
        TWO_MODES,
        "run 100 none - mxm",
        "exec 100 none - mxm",
        "\nr0 00000000 00000000 00000017 00001617 14151617 18191A1B 10111213 14151617\n",
    ),
    (
        TWO_MODULES,
        "run 100 none -",
        "exec 100 none -",
        "\nout 41\n",
    ),
];

#[test]
fn each_example_has_one_report_in_three_ways(rt: HostRuntime) -> Result<(), Fail> {
    expect_one_report(&rt, rt.alloc(), EXAMPLES)
}

/// Ends the test unless the source of each row has one report by the words of `run` and, from its records, by those of
/// `exec`, and the row's line stands in it.
fn expect_one_report(rt: &impl Abort, alloc: Global, rows: &[Example]) -> Result<(), Fail> {
    for (source, run, exec, line) in rows {
        let records = records_of(rt, alloc, source)?;
        let report = bytes_written(rt, alloc, exec, records.as_slice())?;
        expect_text(rt, alloc, run, source, report.as_slice(), line)?;
    }
    Ok(())
}

/// Ends the test unless a command writes a text, and a line stands in it.
fn expect_text(
    rt: &impl Abort,
    alloc: Global,
    command: &str,
    input: &[u8],
    text: &[u8],
    line: &str,
) -> Result<(), Fail> {
    let held = bytes_written(rt, alloc, command, input)?;
    assert!(rt; held.as_slice() == text, "{command}: {held:?}");
    let text = String::from_utf8_lossy(alloc, text)?;
    assert!(rt; text.as_str().contains(line), "{command}: {text}");
    Ok(())
}

/// The S-records of a source by way of its objects; ends the test where `build` writes others.
fn records_of(rt: &impl Abort, alloc: Global, source: &[u8]) -> Result<Vec<u8>, Fail> {
    let objects = bytes_written(rt, alloc, "asm", source)?;
    let linked = bytes_written(rt, alloc, "link", objects.as_slice())?;
    let built = bytes_written(rt, alloc, "build", source)?;
    assert!(rt; linked == built, "{source:?}");
    Ok(linked)
}

/// The text of a command that accepts its input; ends the test where it doesn't.
fn bytes_written(
    rt: &impl Abort,
    alloc: Global,
    line: &str,
    input: &[u8],
) -> Result<Vec<u8>, Fail> {
    let (answer, held) = told(alloc, line, input)?;
    assert!(rt; answer == Status::Done, "{line} is answered {answer:?}");
    Ok(held)
}
