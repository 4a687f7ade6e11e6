//! Paged runs before a store: the pages that it has afterwards, stores that fail in one of their calls, and one that
//! forgets its pages and doesn't tell them.
ghost use Rattle.std.specs.Prelude.{None};
ghost use Rattle.m88_pager.specs.Paged.{HoldsNoneWhereTold};

use m88_base::{Absent, Image, PAGE_BYTES};
use m88_event::Schedule;
use m88_pager::{MemStore, PageEnd, PageStore, Paged, StoreError, page_run};
use std::alloc::Global;
use std::process::Abort;

/// A program that loads from pages 5 and 6.
const LOADS: &[u8] = &[
    0x14, 0x40, 0x50, 0x00, // ld r2,r0,0x5000
    0x14, 0x60, 0x60, 0x00, // ld r3,r0,0x6000
    0x14, 0x80, 0x50, 0x00, // ld r4,r0,0x5000
];

/// One that stores on both, and loads what it stored first.
const STORES: &[u8] = &[
    0x58, 0x80, 0x00, 0x07, // or r4,r0,7
    0x24, 0x80, 0x50, 0x00, // st r4,r0,0x5000
    0x24, 0x80, 0x60, 0x00, // st r4,r0,0x6000
    0x14, 0xA0, 0x50, 0x00, // ld r5,r0,0x5000
];

/// One that stores parts of words, doubles and an exchange, and over its own first word.
const PARTS: &[u8] = &[
    0x58, 0x80, 0x12, 0x34, // or r4,r0,0x1234
    0x28, 0x80, 0x50, 0x02, // st.h r4,r0,0x5002
    0x2C, 0x80, 0x60, 0x01, // st.b r4,r0,0x6001
    0x20, 0x80, 0x70, 0x00, // st.d r4,r0,0x7000
    0x04, 0x80, 0x50, 0x00, // xmem r4,r0,0x5000
    0x24, 0x80, 0x10, 0x00, // st r4,r0,0x1000
    0x14, 0xA0, 0x60, 0x00, // ld r5,r0,0x6000
];

/// The bytes of the last once it is run.
const CHANGED_PARTS: &[u8] = &[
    0x00, 0x00, 0x12, 0x34, // the word that was stored
    0x28, 0x80, 0x50, 0x02, // st.h r4,r0,0x5002
    0x2C, 0x80, 0x60, 0x01, // st.b r4,r0,0x6001
    0x20, 0x80, 0x70, 0x00, // st.d r4,r0,0x7000
    0x04, 0x80, 0x50, 0x00, // xmem r4,r0,0x5000
    0x24, 0x80, 0x10, 0x00, // st r4,r0,0x1000
    0x14, 0xA0, 0x60, 0x00, // ld r5,r0,0x6000
];

/// Those of the pages 0 to 7 that a store holds, each with the bytes before its zeros.
type Pages = &'static [(u32, &'static [u8])];

/// Programs, how many words they have, numbers of frames, and the pages after their runs.
const RUNS: [(&[u8], u32, &[u32], Pages); 3] = [
    (LOADS, 3, &[1, 2], &[]),
    (
        STORES,
        4,
        &[1, 2],
        &[(5, &[0, 0, 0, 7]), (6, &[0, 0, 0, 7])],
    ),
    (
        PARTS,
        7,
        &[1, 2, 3, 64],
        &[
            (1, CHANGED_PARTS),
            (5, &[0, 0, 0x12, 0x34]),
            (6, &[0, 0x34, 0, 0]),
            (7, &[0, 0, 0x12, 0x34]),
        ],
    ),
];

/// An image with a program at 0x1000.
fn image_of(alloc: Global, program: &[u8]) -> Result<Image, PageEnd> {
    let mut image = Image::new(alloc);
    match image.add(0x1000, program) {
        Ok(()) => Ok(image),
        Err(_) => Err(PageEnd::Memory),
    }
}

/// A paged run of an image before a store, with every page present.
fn run<P: PageStore>(
    alloc: Global,
    image: &Image,
    schedule: &Schedule,
    limit: u32,
    frames: u32,
    store: &mut P,
) -> Result<Paged, PageEnd>
    requires { HoldsNoneWhereTold (P.pages store.old) }
{
    page_run(
        alloc,
        image,
        &Absent::None,
        limit.min(100),
        schedule,
        frames.max(1).min(64),
        store,
    )
}

/// The same of a program under the empty schedule.
fn paged<P: PageStore>(
    alloc: Global,
    program: &[u8],
    limit: u32,
    frames: u32,
    store: &mut P,
) -> Result<Paged, PageEnd>
    requires { HoldsNoneWhereTold (P.pages store.old) }
{
    let image = image_of(alloc, program)?;
    let Some(schedule) = Schedule::read("-") else {
        return Err(PageEnd::Memory);
    };
    run(alloc, &image, &schedule, limit, frames, store)
}

/// Holds where a store has exactly these of the first eight pages, each with these bytes and then zeros.
fn expect_pages(rt: &impl Abort, store: &mut MemStore, pages: Pages) -> Result<(), PageEnd> {
    for page in 0..8 {
        let mut bytes = [0; PAGE_BYTES as usize];
        let held = store.read(page, &mut bytes)?;
        let expected = pages.iter().find(|(number, _)| *number == page);
        assert_eq!(rt; held, expected.is_some());
        let Some((_, first)) = expected else {
            continue;
        };
        for (place, byte) in bytes.iter().enumerate() {
            assert_eq!(rt; *byte, first.get(place).copied().unwrap_or(0));
        }
    }
    Ok(())
}

#[test]
fn pages_of_a_store(rt: HostRuntime) -> Result<(), PageEnd> {
    for (program, limit, counts, pages) in RUNS {
        for frames in counts {
            let mut store = MemStore::new(rt.alloc(), &[])?;
            let _ = paged(rt.alloc(), program, limit, *frames, &mut store)?;
            expect_pages(&rt, &mut store, pages)?;
        }
    }
    Ok(())
}

/// How often pages come in and go out in a run with one frame before a store in memory that fails in a call, where the run
/// has an end.
fn counts(alloc: Global, program: &[u8], limit: u32, call: u32) -> Result<(u32, u32), PageEnd> {
    let mut store = MemStore::new(alloc, &[call])?;
    let o = paged(alloc, program, limit, 1, &mut store)?;
    Ok((o.ins, o.outs))
}

#[test]
fn stores_that_fail(rt: HostRuntime) {
    // with one frame two pages are written, one of them comes back, and both are read for the words that changed
    for call in 0..5 {
        assert!(rt; counts(rt.alloc(), STORES, 4, call) == Err(PageEnd::StoreFault));
    }
    assert!(rt; counts(rt.alloc(), STORES, 4, 5) == Ok((3, 2)));
    // a run that only loads makes no call
    assert!(rt; counts(rt.alloc(), LOADS, 3, 0) == Ok((3, 0)));
}

/// A store that forgets its pages, and doesn't tell that it does.
#[derive(Drop)]
struct Forgetful;

impl PageStore for Forgetful {
    ghost pages = { λ _. None };

    ghost writes = { λ _. None };

    ghost faults = { λ _. 0 };

    fn read(&mut self, _page: u32, _into: &mut [u8]) -> Result<bool, StoreError> {
        Ok(false)
    }

    fn write(&mut self, _page: u32, _bytes: &[u8]) -> Result<(), StoreError> {
        Ok(())
    }
}

#[test]
fn a_store_that_forgets(rt: HostRuntime) -> Result<(), PageEnd> {
    let o = paged(rt.alloc(), STORES, 4, 1, &mut Forgetful)?;
    assert_eq!(rt; o.outcome.regs[5], 7);
    assert_eq!(rt; o.outcome.events, 9);
    assert!(rt; o.outcome.changed.as_slice().is_empty());
    assert_eq!(rt; o.ins, 3);
    assert_eq!(rt; o.outs, 2);
    Ok(())
}
