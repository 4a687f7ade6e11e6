//! Words and texts that are too long for a row: as many pages, letters and words of memory as there may be, and one more.

use crate::tests::{run, written};
use m88_base::{MemSink, MemSource};
use m88_cli::Status;
use std::alloc::{AllocError, Global};
use std::process::Abort;
use std::test::Fail;

/// A text in pieces, each with the number of times that it stands there.
type Pieces<'a> = &'a [(&'a str, u32)];

/// A text out of its pieces.
fn joined(alloc: Global, pieces: Pieces) -> Result<String, AllocError> {
    let mut text = String::new(alloc);
    for (piece, count) in pieces {
        for _ in 0..*count {
            text.push_str(piece)?;
        }
    }
    Ok(text)
}

/// The text of a command, whose words are told in pieces.
fn text_of(rt: &impl Abort, alloc: Global, words: Pieces, input: &str) -> Result<String, Fail> {
    let words = joined(alloc, words)?;
    written(rt, alloc, words.as_str(), input.as_bytes())
}

/// Words that are taken, and lines of the report of a load under them.
const TAKEN: &[(Pieces, &str)] = &[
    (PAGES, "\nfaults 1\n"),
    (LAST_OF_64_PAGES, "\nfaults 1\n"),
    (LETTERS, "\nevents 65537\nanswers 1\n"),
];

#[test]
fn pages_and_letters_are_taken_up_to_their_limits(rt: HostRuntime) -> Result<(), Fail> {
    for (words, lines) in TAKEN {
        let text = text_of(&rt, rt.alloc(), words, "ld r2,r0,0x5000\n")?;
        assert!(rt; text.as_str().contains(lines), "{text}");
    }
    Ok(())
}

/// Words with one page or letter more.
const TOO_LONG: &[Pieces] = &[
    PAGE_65,
    REPEATED_PAGE_65,
    PAGED_65,
    LETTER_65537,
    TURN_65537,
    TRACED_65537,
];

#[test]
fn one_more_is_usage(rt: HostRuntime) -> Result<(), Fail> {
    for words in TOO_LONG {
        let (answer, held) = uncalled(rt.alloc(), words)?;
        assert!(rt; answer == Status::Usage && held.is_empty(), "{words:?}");
    }
    Ok(())
}

/// What words answer before they call their source and their sink, which fail at their first call.
fn uncalled(alloc: Global, words: Pieces) -> Result<(Status, Vec<u8>), Fail> {
    let words = joined(alloc, words)?;
    let source = MemSource::new(alloc, b"", 7, &[0])?;
    let sink = MemSink::new(alloc, 1000, 7, &[0])?;
    let said = run(alloc, words.as_str(), source, sink)?;
    Ok(said)
}

/// 64 pages in each spelling, with repeats.
const PAGES: Pieces = &[
    ("run 1 5", 1),
    (",0x00001", 21),
    (",0000001", 20),
    (",0xA", 10),
    (",0xfffff", 10),
    (",1048575,0", 1),
    (" ir", 1),
];

const LAST_OF_64_PAGES: Pieces = &[("run 1 ", 1), ("7,", 63), ("5 ir", 1)];

const PAGE_65: Pieces = &[("run 1 ", 1), ("7,0x7,", 32), ("5 ir", 1)];

const REPEATED_PAGE_65: Pieces = &[("mon ", 1), ("5,", 64), ("5 ir", 1)];

const PAGED_65: Pieces = &[("page 1 1 7", 1), (",7", 64), (" ir", 1)];

const LETTERS: Pieces = &[("run 1 none ", 1), ("i", 65_536)];

const LETTER_65537: Pieces = &[("run 1 none ", 1), ("ir", 32_768), ("i", 1)];

const TURN_65537: Pieces = &[("share 1 none ", 1), ("it", 32_768), ("t", 1)];

const TRACED_65537: Pieces = &[("trace 1 none ", 1), ("ie", 32_768), ("e", 1)];

/// Sessions that show 1,024 words of memory, and the last of them.
const SHOWN: &[(&str, &str)] = &[
    ("mem 0 1024\nsource\n", "\nmem 00000FFC 00000000\n"),
    (
        "mem FFFFF800 0001024\nsource\n",
        "\nmem 000007FC 00000000\n",
    ),
];

#[test]
fn the_monitor_shows_at_most_1024_words(rt: HostRuntime) -> Result<(), Fail> {
    for (session, end) in SHOWN {
        let text = written(&rt, rt.alloc(), "mon none -", session.as_bytes())?;
        assert!(rt; text.len() == 22_528 && text.as_str().ends_with(end));
    }
    Ok(())
}

/// Four loads, of which the data unit has room for three; the page of the last is absent in these runs.
const LOADS_OF_TWO_PAGES: &str =
    "ld r2,r0,0x5000\nld r3,r0,0x5004\nld r4,r0,0x5008\nld r5,r0,0x6000\n";

/// Runs by as many letters as there may be, and the end of the end of their reports.
const LONGEST: &[(Pieces, &str)] = &[
    (
        &[("run 4 6 ", 1), ("i", 65_536)],
        "\nevents 65543\nanswers 3\nfaults 1\nfault 1 event 65543\n\
        epsr 000003F8 sxip 0000100E snip 00001013 sfip 00001017 ssbr 00000020\n\
        t0 000002BD 00000000 00006000\nt1 00000000 00000000 00000000\nt2 00000000 00000000 00000000\n",
    ),
    (
        &[("run 4 6 ", 1), ("r", 65_536)],
        "\nevents 65545\nanswers 3\nfaults 1\nfault 1 event 65545\n\
        epsr 000003F8 sxip 0000100E snip 00001013 sfip 00001017 ssbr 00000020\n\
        t0 000002BD 00000000 00006000\nt1 00000000 00000000 00000000\nt2 00000000 00000000 00000000\n",
    ),
    (
        &[("share 4 6 ", 1), ("t", 65_536)],
        "\nevents 9\nanswers 3\nfaults 1\nfault 1 event 9\n\
        epsr 000003F8 sxip 0000100E snip 00001013 sfip 00001017 ssbr 00000020\n\
        t0 000002BD 00000000 00006000\nt1 00000000 00000000 00000000\nt2 00000000 00000000 00000000\n\
        events 65545\nswitches 0\n",
    ),
    (
        &[("page 1 4 6 ", 1), ("i", 65_536)],
        "\nt2 00000000 00000000 00000000\nframes 1\nins 2\nouts 0\n",
    ),
    (
        &[("trace 4 6 ", 1), ("i", 65_536)],
        "2 00001008 14805008 l 00005008 F 00000000\n3 0000100C 14A06000 l 00006000 F 00000000\n",
    ),
];

#[test]
fn letters_without_work_are_counted(rt: HostRuntime) -> Result<(), Fail> {
    for (words, end) in LONGEST {
        let text = text_of(&rt, rt.alloc(), words, LOADS_OF_TWO_PAGES)?;
        assert!(rt; text.as_str().ends_with(end), "{text}");
    }
    Ok(())
}
