//! A board handed over to software: at a data fault, and between two instructions. The values are worked by hand.

use super::sharing::image_of;
use m88_base::{Absent, Image, NoMemory, Triple};
use m88_board::{Board, Parts};
use m88_ctrl::cr;
use m88_event::{End, Happened, Letter, Outcome, Record};
use std::alloc::Global;
use std::process::Abort;

/// Makes the event of a letter, among the first hundred.
fn event(board: &mut Board, letter: Letter) -> Result<Happened, NoMemory> {
    if board.events() >= 100 {
        return Err(NoMemory);
    }
    let happened = board.event(letter)?;
    Ok(happened)
}

/// A load into r2, a store of 7 in the delay slot of a taken branch, a signed byte into r3, and a branch that leaves a
/// bubble before the sum of both.
const LATE: [u32; 10] = [
    0x5880_0007, // or r4,r0,7
    0x1440_5000, // ld r2,r0,0x5000
    0xC400_0003, // br.n .+12
    0x2480_6000, // st r4,r0,0x6000
    0x58A0_0001, // or r5,r0,1
    0x5880_0009, // or r4,r0,9
    0x1C60_7001, // ld.b r3,r0,0x7001
    0xC000_0002, // br .+8
    0x58A0_0002, // or r5,r0,2
    0xF4C2_6003, // addu r6,r2,r3
];

/// The image of these, with the words that are loaded.
fn late_image(alloc: Global) -> Result<Image, NoMemory> {
    let mut image = image_of(alloc, &LATE)?;
    image
        .add(0x5000, &[0x11, 0x22, 0x33, 0x44])
        .or(Err(NoMemory))?;
    image.add(0x7000, &[1, 0x80, 3, 4]).or(Err(NoMemory))?;
    Ok(image)
}

/// The board of that image behind its first seven events, each of which issues an instruction. Every page is absent.
fn late_board(rt: &impl Abort, alloc: Global) -> Result<Board, NoMemory> {
    let image = late_image(alloc)?;
    let mut board = Board::new(alloc, &image, &Absent::All, 8, false)?;
    assert!(rt; !board.meets_fault());
    for _ in 0..7 {
        assert!(rt; event(&mut board, Letter::Issue) == Ok(Happened::Issued));
    }
    Ok(board)
}

/// Ends the test unless the record has these words.
fn expect_record(rt: &impl Abort, record: &Record) {
    assert_eq!(rt; record.event, 8);
    assert_eq!(rt; record.epsr, 0x3F8);
    assert_eq!(rt; record.sxip, 0x101E);
    assert_eq!(rt; record.snip, 0x1020);
    assert_eq!(rt; record.sfip, 0x1026);
    assert_eq!(rt; record.ssbr, 0xC);
    let [first, second, third] = record.triples;
    expect_triple(rt, &first, 0x13D, 0, 0x5000);
    expect_triple(rt, &second, 0x3F, 7, 0x6000);
    expect_triple(rt, &third, 0x1D1, 0, 0x7000);
}

/// Ends the test unless a transaction has these words.
fn expect_triple(rt: &impl Abort, triple: &Triple, dmt: u32, dmd: u32, dma: u32) {
    assert_eq!(rt; triple.dmt, dmt);
    assert_eq!(rt; triple.dmd, dmd);
    assert_eq!(rt; triple.dma, dma);
}

/// Ends the test unless the parts are those behind the bubble, with 0 for what waited and nothing stored.
fn expect_parts(rt: &impl Abort, parts: &Parts) {
    let [_r0, _r1, r2, r3, r4, r5, ..] = parts.regs;
    assert!(rt; [r2, r3, r4, r5] == [0, 0, 9, 0]);
    assert!(rt; [parts.pc, parts.next] == [0x1024, 0x1028]);
    assert!(rt; parts.last == Some(0x101C));
    assert!(rt; [parts.retired, parts.done, parts.answers] == [7, 3, 0]);
    assert_eq!(rt; parts.events, 8);
    assert_eq!(rt; parts.records.as_slice().len(), 1);
    assert!(rt; parts.memory.is_absent(5) && parts.memory.is_absent(6));
    assert_eq!(rt; parts.memory.word(0x6000), 0);
}

/// The board behind a return that left all of what was pending undone.
fn returned(rt: &impl Abort, board: Board) -> Result<Board, NoMemory> {
    if board.events() >= 100 || board.next_slot().v {
        return Err(NoMemory);
    }
    if !board.meets_fault() {
        return Err(NoMemory);
    }
    let (parts, record) = board.into_fault()?;
    expect_record(rt, &record);
    expect_parts(rt, &parts);
    if parts.retired > 8 {
        return Err(NoMemory);
    }
    Ok(Board::resume(parts, 8, false, true))
}

#[test]
fn a_data_fault_is_left_to_software(rt: HostRuntime) -> Result<(), NoMemory> {
    let board = late_board(&rt, rt.alloc())?;
    let mut board = returned(&rt, board)?;
    for did in [Happened::Bubble, Happened::Issued, Happened::Idle] {
        assert!(rt; event(&mut board, Letter::Issue) == Ok(did));
    }
    let outcome = board.outcome()?;
    assert!(rt; outcome.end == End::Limit);
    assert!(rt; [outcome.retired, outcome.answers] == [8, 0]);
    let [_r0, _r1, r2, r3, r4, _r5, r6, ..] = outcome.regs;
    assert!(rt; [r2, r3, r4, r6] == [0, 0, 9, 0]);
    assert_eq!(rt; outcome.events, 11);
    assert!(rt; outcome.changed.as_slice().is_empty());
    assert_eq!(rt; outcome.records.as_slice().len(), 1);
    Ok(())
}

#[test]
fn control_registers_behind_a_late_fault(rt: HostRuntime) -> Result<(), NoMemory> {
    let mut board = late_board(&rt, rt.alloc())?;
    let fault = event(&mut board, Letter::Answer)?;
    let Happened::Faulted(record) = fault else {
        return Err(NoMemory);
    };
    expect_record(&rt, &record);
    // the record, with SSBR 0 and VALID, bit 0 of each DMT, cleared
    let words = [
        (cr::PSR, 0x3F8),
        (cr::EPSR, 0x3F8),
        (cr::SSBR, 0),
        (cr::SXIP, 0x101E),
        (cr::SNIP, 0x1020),
        (cr::SFIP, 0x1026),
        (cr::VBR, 0),
        (cr::DMT0, 0x13C),
        (cr::DMD0, 0),
        (cr::DMA0, 0x5000),
        (cr::DMT1, 0x3E),
        (cr::DMD1, 7),
        (cr::DMA1, 0x6000),
        (cr::DMT2, 0x1D0),
        (cr::DMD2, 0),
        (cr::DMA2, 0x7000),
        (cr::SR0, 0),
        (cr::SR3, 0),
    ];
    for (number, word) in words {
        assert!(rt; board.ctrl().ldcr(number) == Some(word), "cr{number}");
    }
    Ok(())
}

/// The board of words behind the event that issues the first of them.
fn behind_first(alloc: Global, words: &[u32]) -> Result<Board, NoMemory> {
    let image = image_of(alloc, words)?;
    let mut board = Board::new(alloc, &image, &Absent::None, 3, false)?;
    event(&mut board, Letter::Issue)?;
    Ok(board)
}

#[test]
fn the_exception_of_the_next_instruction(rt: HostRuntime) -> Result<(), NoMemory> {
    let rows = [
        ([0x5920_0020, 0xF000_D1F0], Some(496)), // or r9,r0,0x20 and tb0 0,r0,496
        ([0x5920_0063, 0xF000_D1F0], Some(496)), // or r9,r0,0x63 and the same
        ([0x5920_0020, 0xF000_D0C8], Some(200)), // tb0 0,r0,200
        ([0x5920_0020, 0x6880_0000], Some(8)), // divu r4,r0,0
        ([0x5920_0020, 0xF820_0001], Some(5)), // no instruction
        ([0x5920_0020, 0x5840_0001], None), // or r2,r0,1
        ([0x1440_5000, 0xF000_D1F0], None), // ld r2,r0,0x5000, for which the trap waits
        ([0xC000_0002, 0xF000_D1F0], None), // br .+8, and the bubble
    ];
    for (words, vector) in rows {
        let board = behind_first(rt.alloc(), &words)?;
        assert!(rt; board.next_vector() == vector, "{:08X}", words[1]);
    }
    let board = behind_first(rt.alloc(), &[0x5840_0001])?;
    assert!(rt; board.next_vector() == Some(2));
    Ok(())
}

/// What a run comes to that software stops before its next exception, as if it had failed at 0x24.
fn stopped(board: Board) -> Result<Outcome, NoMemory> {
    let Some(_vector) = board.next_vector() else {
        return Err(NoMemory);
    };
    let parts = board.into_parts_midway();
    let outcome = parts.outcome(End::Vector {
        vector: 10,
        at: 0x24,
    })?;
    Ok(outcome)
}

#[test]
fn a_run_is_stopped_by_software(rt: HostRuntime) -> Result<(), NoMemory> {
    let board = behind_first(rt.alloc(), &[0x5920_0020, 0xF000_D1F0])?;
    let outcome = stopped(board)?;
    let end = End::Vector {
        vector: 10,
        at: 0x24,
    };
    assert!(rt; outcome.end == end);
    assert!(rt; [outcome.retired, outcome.regs[9], outcome.answers] == [1, 0x20, 0]);
    assert_eq!(rt; outcome.events, 1);
    assert!(rt; outcome.out.as_slice().is_empty());
    Ok(())
}
