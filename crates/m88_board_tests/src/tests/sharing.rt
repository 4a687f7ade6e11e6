//! The answers of events that programs share, and two programs that change places by hand.
ghost use Rattle.std.specs.Prelude.{◌≡◌, false};

use m88_base::{Absent, Image, NoMemory};
use m88_board::{Board, Context};
use m88_event::{End, Happened, Letter, Outcome, Record};
use m88_tasks::{ShareLetter, Switch, Tasks, Turned};
use std::alloc::Global;
use std::process::Abort;

/// An image with words from 0x1000 on.
pub(super) fn image_of(alloc: Global, words: &[u32]) -> Result<Image, NoMemory> {
    let mut image = Image::new(alloc);
    for word in words {
        let end = 0x1000 + image.len() as u32;
        image.add(end, &word.to_be_bytes()).or(Err(NoMemory))?;
    }
    Ok(image)
}

/// Ends the test unless the event of a letter has this answer.
fn expect_turned(rt: &impl Abort, tasks: &mut Tasks, letter: ShareLetter, did: Turned) {
    if !tasks.is_over() && tasks.events() < 100 {
        assert!(rt; tasks.event(letter) == Ok(did));
    }
}

/// The switch of an event from a program to the other, before any instruction of the one that runs, whose image has one.
fn switch(event: u64, from: u8, to: u8) -> Turned {
    Turned::Switched(Switch {
        event,
        from,
        to,
        epsr: 0x3F8,
        sxip: 0,
        snip: 0x1002,
        sfip: 0x1007,
    })
}

/// The programs of two images, of which each retires one instruction.
fn two_programs(alloc: Global, images: &[Image]) -> Result<Tasks, NoMemory> {
    if images.len() != 2 {
        return Err(NoMemory);
    }
    Tasks::new(alloc, images, &Absent::None, 1)
}

#[test]
fn answers_of_events(rt: HostRuntime) -> Result<(), NoMemory> {
    // ld r2,r0,0x5000, and or r2,r0,1
    let first = image_of(rt.alloc(), &[0x1440_5000])?;
    let second = image_of(rt.alloc(), &[0x5840_0001])?;
    let images = [first, second];
    let mut tasks = two_programs(rt.alloc(), &images)?;
    let [issue, answer] = [Letter::Issue, Letter::Answer].map(ShareLetter::Own);
    let rows = [
        (ShareLetter::Turn, switch(1, 0, 1)),
        (ShareLetter::Turn, switch(2, 1, 0)),
        (issue, Turned::Own(Happened::Issued)),
        (ShareLetter::Turn, Turned::Held(1)),
        (answer, Turned::Own(Happened::Answered)),
        (ShareLetter::Turn, Turned::Alone),
        (answer, Turned::Own(Happened::Idle)),
        (issue, Turned::Own(Happened::Issued)),
    ];
    for (letter, did) in rows {
        expect_turned(&rt, &mut tasks, letter, did);
    }
    assert!(rt; tasks.is_over());
    assert_eq!(rt; tasks.events(), 8);
    Ok(())
}

/// The answer of the event of a letter, among the first hundred.
fn event(board: &mut Board, letter: Letter) -> Result<Happened, NoMemory>
    requires { board.old.begun ≡ false }
    ensures { board.new.begun ≡ false }
{
    if board.events() >= 100 {
        return Err(NoMemory);
    }
    let happened = board.event(letter)?;
    Ok(happened)
}

/// Ends the test unless the event of a letter has this answer.
fn expect_event(rt: &impl Abort, board: &mut Board, letter: Letter, did: Happened)
    requires { board.old.begun ≡ false }
    ensures { board.new.begun ≡ false }
{
    let answer = event(board, letter);
    assert!(rt; answer == Ok(did));
}

/// Ends the test unless the letters i, r and i issue an instruction, find nothing to answer, and issue one more.
fn expect_two(rt: &impl Abort, board: &mut Board)
    requires { board.old.begun ≡ false }
    ensures { board.new.begun ≡ false }
{
    expect_event(rt, board, Letter::Issue, Happened::Issued);
    expect_event(rt, board, Letter::Answer, Happened::Idle);
    expect_event(rt, board, Letter::Issue, Happened::Issued);
}

/// The program of an image runs in place of that of the board, whose words are saved: the record, and the context of the
/// program that ran.
fn hand_over(alloc: Global, board: &mut Board, image: &Image) -> Result<(Record, Context), NoMemory>
    requires { board.old.begun ≡ false }
    ensures { board.new.begun ≡ false }
{
    let mut context = Context::new(alloc, image, &Absent::None, 2, false)?;
    let record = board.interrupt(&mut context).or(Err(NoMemory))?;
    Ok((record, context))
}

/// Ends the test unless a program retired two instructions in three events.
fn expect_came(rt: &impl Abort, outcome: &Outcome, r2: u32, r3: u32) {
    assert!(rt; outcome.end == End::Limit);
    assert_eq!(rt; outcome.retired, 2);
    assert_eq!(rt; outcome.regs[2], r2);
    assert_eq!(rt; outcome.regs[3], r3);
    assert_eq!(rt; outcome.events, 3);
    assert_eq!(rt; outcome.answers, 0);
    assert!(rt; outcome.records.as_slice().is_empty());
}

/// The record of the program that runs.
fn expect_record(rt: &impl Abort, record: &Record) {
    assert_eq!(rt; record.event, 4);
    assert_eq!(rt; record.epsr, 0x3F8);
    assert_eq!(rt; record.sxip, 0x1006);
    assert_eq!(rt; record.snip, 0x100B);
    assert_eq!(rt; record.sfip, 0x100F);
    assert_eq!(rt; record.ssbr, 0);
}

/// Two programs of two instructions, of which the second runs in place of the first once that is over.
fn change_places(
    rt: &impl Abort,
    alloc: Global,
    first: &Image,
    second: &Image,
) -> Result<(), NoMemory> {
    let mut board = Board::new(alloc, first, &Absent::None, 2, false)?;
    expect_two(rt, &mut board);
    let (record, context) = hand_over(alloc, &mut board, second)?;
    expect_record(rt, &record);
    assert_eq!(rt; context.saved.snip, 0x100B);
    expect_two(rt, &mut board);
    let waited = context.outcome()?;
    expect_came(rt, &waited, 1, 2);
    let ran = board.outcome()?;
    expect_came(rt, &ran, 3, 4);
    Ok(())
}

#[test]
fn programs_change_places_by_hand(rt: HostRuntime) -> Result<(), NoMemory> {
    // or r2,r0,1 and or r3,r0,2; or r2,r0,3 and or r3,r0,4
    let first = image_of(rt.alloc(), &[0x5840_0001, 0x5860_0002])?;
    let second = image_of(rt.alloc(), &[0x5840_0003, 0x5860_0004])?;
    change_places(&rt, rt.alloc(), &first, &second)
}
