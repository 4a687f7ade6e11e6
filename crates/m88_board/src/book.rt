//! What is kept of a run beside its words and its memory.

ghost use Rattle.std.specs.Prelude.{◌≡◌, IfOk};
ghost use Rattle.m88_board.specs.Inside.Books.{new_book, outcome_in};

use m88_base::{Absent, Listed, NoMemory};
use m88_event::{End, Outcome, Record};
use m88_mem::Memory;
use std::alloc::Global;

/// What is kept of a run beside its words and its memory. A board has that of the program that it runs.
#[derive(Drop, Debug)]
pub struct Book {
    /// The pages that were absent at first.
    pub absent: Absent,
    /// The most instructions that it may retire, at most 1,000,000.
    pub limit: u32,
    /// The instructions that were retired.
    pub retired: u32,
    /// The transactions that were answered or finished.
    pub done: u32,
    /// The events so far, at most 2^63.
    pub events: u64,
    /// The transactions that were answered with data.
    pub answers: u32,
    /// How the program ended, if it has.
    pub end: Option<End>,
    /// The output, a byte for each output trap.
    pub out: Listed<u8>,
    /// A record for each data fault, in order.
    pub records: Listed<Record>,
}

impl Book {
    /// The book of a program before its first event.
    pub(crate) fn new(alloc: Global, absent: Absent, limit: u32) -> Book
        ensures { result ≡ new_book absent limit }
    {
        Book {
            absent,
            limit,
            retired: 0,
            done: 0,
            events: 0,
            answers: 0,
            end: None,
            out: Listed::new(Vec::new(alloc)),
            records: Listed::new(Vec::new(alloc)),
        }
    }

    /// What a run came to that is over, with what its registers, its carry and its memory hold then. Where memory runs
    /// out, the book is gone.
    pub(crate) fn into_outcome(
        self,
        regs: [u32; 32],
        carry: bool,
        memory: &Memory,
    ) -> Result<Outcome, NoMemory>
        ensures { IfOk result (λ o. o ≡ outcome_in self regs carry memory.now) }
    {
        let out = self.out.into_items();
        let changed = memory.changed(*out.allocator())?;
        Ok(Outcome {
            end: self.end.unwrap_or(End::Limit),
            retired: self.retired,
            regs,
            carry,
            out: Listed::new(out),
            changed: Listed::new(changed),
            events: self.events,
            answers: self.answers,
            records: self.records,
        })
    }
}
