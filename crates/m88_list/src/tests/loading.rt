//! The calls that load S-record texts in pieces: worked ones whose images and faults weren't made here, and what
//! comes of each end of a source.

ghost use Rattle.std.specs.Prelude.{◌≡◌, ◌<◌, ◌^◌, length};
ghost use Rattle.m88_srec.specs.Accepted.{whole_of};
ghost use Rattle.m88_srec.specs.GivesVerdict.{GivesVerdict};
ghost use Rattle.m88_srec.specs.Verdict.{verdict};

use crate::tests::srecords::PROGRAM;
use m88_base::{Image, MemSource};
use m88_srec::{LoadEnd, Loader, SrecFault, SrecKind, read_image};
use std::alloc::Global;
use std::test::Fail;

const SUM: SrecFault = SrecFault {
    line: 3,
    kind: SrecKind::Sum {
        written: 0xEB,
        computed: 0xEA,
    },
};

const NO_END: SrecFault = SrecFault {
    line: 3,
    kind: SrecKind::NoEnd,
};

const OVERLAP: SrecFault = SrecFault {
    line: 3,
    kind: SrecKind::Overlap(0x1000),
};

const OUT_OF_MEMORY: SrecFault = SrecFault {
    line: 0,
    kind: SrecKind::Memory,
};

/// The program's text, with a wrong sum in its last line, without that line, and with its second line twice; each with
/// both line ends, and without the last one.
const TEXTS: [(&[u8], Option<SrecFault>); 9] = [
    (
        b"S00600004D38383C\nS30D0000100058400041F000D1F058\nS70500001000EA\n",
        None,
    ),
    (
        b"S00600004D38383C\r\nS30D0000100058400041F000D1F058\r\nS70500001000EA\r\n",
        None,
    ),
    (
        b"S00600004D38383C\nS30D0000100058400041F000D1F058\r\nS70500001000EA",
        None,
    ),
    (
        b"S00600004D38383C\nS30D0000100058400041F000D1F058\nS70500001000EB\n",
        Some(SUM),
    ),
    (
        b"S00600004D38383C\r\nS30D0000100058400041F000D1F058\r\nS70500001000EB",
        Some(SUM),
    ),
    (
        b"S00600004D38383C\nS30D0000100058400041F000D1F058\n",
        Some(NO_END),
    ),
    (
        b"S00600004D38383C\r\nS30D0000100058400041F000D1F058",
        Some(NO_END),
    ),
    (
        b"S00600004D38383C\nS30D0000100058400041F000D1F058\nS30D0000100058400041F000D1F058\nS70500001000EA\n",
        Some(OVERLAP),
    ),
    (
        b"S00600004D38383C\r\nS30D0000100058400041F000D1F058\r\nS30D0000100058400041F000D1F058\r\nS70500001000EA\r\n",
        Some(OVERLAP),
    ),
];

/// What a loader makes of a text in pieces of a size: what the whole text comes to.
fn read_in_pieces(alloc: Global, text: &[u8], size: usize) -> Result<Image, SrecFault>
    requires some { 0 < size }
    requires short { length text.now < 2 ^ 31 }
    ensures { GivesVerdict whole_of result (verdict text.now) }
{
    let mut loader = Loader::new(alloc);
    let mut rest = text;
    while !rest.is_empty() {
        let (piece, behind) = rest.split_at(size.min(rest.len()));
        // A fault is answered again where the text ends.
        let _ = loader.feed(piece);
        rest = behind;
    }
    loader.finish()
}

/// Whether an image is that of the program.
fn is_program(image: &Image) -> bool {
    image.start() == 0x1000
        && image.part_count() == 1
        && image.part(0) == (0x1000, PROGRAM.as_slice())
}

#[test]
fn a_text_in_pieces_is_read_as_the_whole(rt: HostRuntime) -> Result<(), Fail> {
    for (text, wanted) in TEXTS {
        for size in [1, 5, 1000] {
            let fed = match (read_in_pieces(rt.alloc(), text, size), wanted) {
                (Ok(image), None) => is_program(&image),
                (Err(fault), Some(wanted)) => fault == wanted,
                _ => false,
            };
            assert!(rt; fed, "fed {size} {wanted:?}");
            let mut source = MemSource::new(rt.alloc(), text, size, &[]).map_err(|_| "memory")?;
            let streamed = match (read_image(rt.alloc(), &mut source, 1000), wanted) {
                (Ok(image), None) => is_program(&image),
                (Err(LoadEnd::Refused(fault)), Some(wanted)) => fault == wanted,
                _ => false,
            };
            assert!(rt; streamed, "streamed {size} {wanted:?}");
        }
    }
    Ok(())
}

#[test]
fn a_source_ends_as_told(rt: HostRuntime) -> Result<(), Fail> {
    let form = LoadEnd::Refused(SrecFault {
        line: 1,
        kind: SrecKind::Form,
    });
    for (text, max, failing, wanted) in [
        (b"S70500001000EA\n".as_slice(), 15, [9], None),
        (b"S70500001000EA\n", 14, [9], Some(LoadEnd::TooLong)),
        (b"S70500001000EA\n", 15, [3], Some(LoadEnd::SourceFault)),
        (b"x\nS70500001000EA\n", 17, [9], Some(form)),
        (b"x\nS70500001000EA\n", 16, [9], Some(LoadEnd::TooLong)),
        (b"x\nS70500001000EA\n", 17, [4], Some(LoadEnd::SourceFault)),
    ] {
        let mut source = MemSource::new(rt.alloc(), text, 4, &failing).map_err(|_| "memory")?;
        let told = read_image(rt.alloc(), &mut source, max).err();
        assert!(rt; told == wanted, "{wanted:?}");
    }
    Ok(())
}

#[test]
fn a_fault_is_answered_again(rt: HostRuntime) -> Result<(), Fail> {
    let (text, more) = TEXTS[0].0.split_at(50);
    for (first, wanted) in [
        (
            b"S0050000\nx".as_slice(),
            SrecFault {
                line: 1,
                kind: SrecKind::Count {
                    written: 5,
                    found: 2,
                },
            },
        ),
        (text, OUT_OF_MEMORY),
    ] {
        let mut loader = Loader::new(rt.alloc());
        // Only the first of these has a fault, unless memory runs out.
        if loader.feed(first) == Err(wanted) {
            assert!(rt; loader.feed(more) == Err(wanted));
            assert!(rt; loader.feed(b"") == Err(wanted));
            assert!(rt; loader.finish().err() == Some(wanted));
        } else {
            assert!(rt; wanted == OUT_OF_MEMORY);
        }
    }
    Ok(())
}
