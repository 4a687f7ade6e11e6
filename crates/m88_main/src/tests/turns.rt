//! Programs that share a board under many interrupts: their reports are those of own runs.

use crate::tests::written;
use std::alloc::{AllocError, Global};
use std::process::Abort;
use std::test::Fail;

/// Programs: what stands before each in an input, before its report, and its source.
const PROGRAMS: &[(&str, &str, &str)] = &[
    (
        "",
        "program 1\n",
        "_start: or r4,r0,7\nld r2,r0,0x5000\nbr.n over\nst r4,r0,0x6000\nor r5,r0,1\n\
            over: or r4,r0,9\nld.b r3,r0,0x7001\nbr join\nor r5,r0,2\njoin: addu r6,r2,r3\n\
            or r9,r0,0x63\ntb0 0,r0,496\n.at 0x5000\n.word 0x11223344\n.at 0x7000\n\
            .byte 1,0x80,3,4\n",
    ),
    (
        "program\n",
        "program 2\n",
        "or r9,r0,0x20\nor r3,r0,3\nor r2,r0,'a'\nloop: tb0 0,r0,496\nsubu r3,r3,1\n\
            bcnd.n ne0,r3,loop\naddu r2,r2,1\nor r9,r0,0x63\ntb0 0,r0,496\n",
    ),
    (
        "program\n",
        "program 3\n",
        "ld.d r2,r0,0x5000\naddu r4,r2,r0\naddu r5,r2,r3\nst.d r4,r0,0x6000\nld r6,r0,0x6004\n\
            .at 0x5000\n.word 1,2\n",
    ),
    (
        "program\n",
        "program 4\n",
        "or r2,r0,1\nagain: xmem r2,r0,0x6010\nbcnd ne0,r2,again\nst r2,r0,0x6010\n\
            tb0 0,r0,300\n.at 0x6010\n.word 0\n",
    ),
    (
        "program\n",
        "program 5\n",
        "subu.co r2,r0,r0\nld r3,r0,0x6000\naddu.cio r4,r3,r3\nbr x\nx: addu.ci r5,r0,r0\nrte\n\
            .at 0x6000\n.word 0xFFFFFFFF\n",
    ),
    (
        "program\n",
        "program 6\n",
        "ld r2,r0,0x5000\nbr.n x\nbr x\nor r4,r0,1\nx: or r3,r0,1\n",
    ),
    (
        "program\n",
        "program 7\n",
        "loop: ld r2,r0,0x5000\naddu r2,r2,1\nst r2,r0,0x5000\nbr loop\n",
    ),
    ("program\n", "program 8\n", ""),
];

/// A schedule of the first of them, the letters that each of these takes, and what stands after
/// their reports.
const TAKEN: &[(&str, &[&str], &str)] = &[
    (
        "reeiiiiriiittitrrtitrititrittiriiiiiitrirttr",
        &["reeiiiiriiiirrririi", "iiriiiiiirirrriririririririri"],
        "events 60\nswitches 6\nswitch 1 event 18 from 1 to 2\n\
            epsr 000003F8 sxip 0000101E snip 00001026 sfip 0000102A\n\
            switch 2 event 20 from 2 to 1\n\
            epsr 000003F8 sxip 00001002 snip 00001006 sfip 0000100A\n\
            switch 3 event 23 from 1 to 2\n\
            epsr 000003F8 sxip 00001026 snip 0000102A sfip 0000102E\n\
            switch 4 event 25 from 2 to 1\n\
            epsr 000003F8 sxip 00001006 snip 0000100A sfip 0000100E\n\
            switch 5 event 28 from 1 to 2\n\
            epsr 000003F8 sxip 0000102A snip 0000102E sfip 00001033\n\
            switch 6 event 29 from 2 to 1\n\
            epsr 000003F8 sxip 00001006 snip 0000100A sfip 0000100E\n",
    ),
    (
        "iiiteiirtirrtiriirirtietiriirrrrtriiertititeiriiiietiriirirt",
        &[
            "iiieiirieiriirrrrii",
            "irrriierieiriirirririririririririri",
            "iriiririieiri",
        ],
        "events 78\nswitches 5\nswitch 1 event 9 from 1 to 2\n\
            epsr 000003F8 sxip 00001016 snip 0000101A sfip 0000101E\n\
            switch 2 event 13 from 2 to 3\n\
            epsr 000003F8 sxip 00001002 snip 00001006 sfip 0000100A\n\
            switch 3 event 21 from 3 to 1\n\
            epsr 000003F8 sxip 0000100E snip 00001012 sfip 00001017\n\
            switch 4 event 33 from 1 to 2\n\
            epsr 000003F8 sxip 00001026 snip 0000102A sfip 0000102E\n\
            switch 5 event 39 from 2 to 3\n\
            epsr 000003F8 sxip 0000100A snip 0000100E sfip 00001012\n",
    ),
    (
        "rrriirieriiirirrirrrittrtrreitriiiriteiriieitiitttreirrrtiiiiiiriitiiirrriitrtriiriiiiiitiiriereriittttiitirii",
        &[
            "rrriirieriiirirrirrriii",
            "iiiriiriririririririririririri",
            "riiirrriiririri",
            "rreirriririri",
            "riiiririirii",
            "eirii",
            "eiiireirrriiiiiiriereriiiiiriiririririririririririri",
            "i",
        ],
        "events 170\nswitches 9\nswitch 1 event 22 from 1 to 2\n\
            epsr 000003F8 sxip 00001026 snip 0000102A sfip 0000102E\n\
            switch 2 event 23 from 2 to 3\n\
            epsr 000003F8 sxip 00000000 snip 00001002 sfip 00001006\n\
            switch 3 event 25 from 3 to 4\n\
            epsr 000003F8 sxip 00000000 snip 00001002 sfip 00001006\n\
            switch 4 event 30 from 4 to 5\n\
            epsr 000003F8 sxip 00001002 snip 00001006 sfip 0000100A\n\
            switch 5 event 37 from 5 to 6\n\
            epsr 100003F8 sxip 0000100A snip 0000100E sfip 00001012\n\
            switch 6 event 57 from 7 to 8\n\
            epsr 000003F8 sxip 00001006 snip 0000100A sfip 0000100E\n\
            switch 7 event 67 from 2 to 3\n\
            epsr 000003F8 sxip 00001012 snip 00001016 sfip 0000101A\n\
            switch 8 event 76 from 3 to 4\n\
            epsr 000003F8 sxip 0000100A snip 0000100E sfip 00001012\n\
            switch 9 event 78 from 4 to 5\n\
            epsr 000003F8 sxip 00001002 snip 00001006 sfip 0000100A\n",
    ),
];

#[test]
fn each_report_is_that_of_an_own_run(rt: HostRuntime) -> Result<(), Fail> {
    for (schedule, owns, end) in TAKEN {
        let input = sources(rt.alloc(), owns.len())?;
        let text = own_reports(&rt, rt.alloc(), owns, end)?;
        let words = format!(in rt.alloc(); "share 20 5,6 {schedule}")?;
        let held = written(&rt, rt.alloc(), words.as_str(), input.as_bytes())?;
        assert!(rt; held == text, "{words}: {held}");
    }
    Ok(())
}

/// The sources of the first programs, one after another.
fn sources(alloc: Global, count: usize) -> Result<String, AllocError> {
    let mut input = String::new(alloc);
    for (line, _, source) in PROGRAMS.iter().take(count) {
        input.push_str(line)?;
        input.push_str(source)?;
    }
    Ok(input)
}

/// The report of each program under letters of its own, below its heading, and an end.
fn own_reports(rt: &impl Abort, alloc: Global, owns: &[&str], end: &str) -> Result<String, Fail> {
    let mut text = String::new(alloc);
    for ((_, heading, source), own) in PROGRAMS.iter().zip(owns) {
        text.push_str(heading)?;
        push_report(rt, alloc, &mut text, own, source)?;
    }
    text.push_str(end)?;
    Ok(text)
}

/// Appends the report of a program under letters.
fn push_report(
    rt: &impl Abort,
    alloc: Global,
    text: &mut String,
    letters: &str,
    source: &str,
) -> Result<(), Fail> {
    let words = format!(in alloc; "run 20 5,6 {letters}")?;
    let report = written(rt, alloc, words.as_str(), source.as_bytes())?;
    text.push_str(report.as_str())?;
    Ok(())
}
