//! What an event did.

use crate::record::Record;
use m88_base::{Hex8, Reg};
use std::fmt;

/// Why the next instruction isn't issued yet: the first of these that holds.
#[derive(Clone, Copy, PartialEq, Eq, Debug)]
pub enum Why {
    /// It uses or writes this register, which waits for a load. Of several it is the one with the least number.
    Busy(Reg),
    /// The data unit has no room for its accesses.
    Full,
    /// It waits until the data unit is empty: it can't be fetched, is no instruction, raises, or is a conditional trap.
    Sync,
}

/// How a run ended.
#[derive(Clone, Copy, PartialEq, Eq, Debug)]
pub enum End {
    /// As many instructions were retired as the run may make.
    Limit,
    /// The program asked for its end by the monitor's trap at this byte address.
    Exit { at: u32 },
    /// What stands at this byte address can't be fetched or is no instruction, or the instruction there raised
    /// this vector or is a taken trap of it that the monitor doesn't serve.
    Vector { vector: u16, at: u32 },
}

impl fmt::Display for End {
    ghost use Rattle.std.specs.Prelude.{Some};
    ghost use Rattle.m88_event.specs.EndText.{end_text};

    ghost output = { λ end. Some (end_text end) };

    #[tactic(auto, unfolding(crate::specs::EndText::end_text))]
    fn fmt<W: fmt::Write>(&self, f: &mut fmt::Formatter<W>) -> fmt::Result {
        match self {
            End::Limit => f.write_str("limit"),
            End::Exit { at } => write!(f, "exit at {}", Hex8(*at)),
            End::Vector { vector, at } => write!(f, "vector {vector} at {}", Hex8(*at)),
        }
    }
}

/// What one event did. `Issued`, `Bubble`, `Stalled`, `Served` and `Ended` come only at `i`, `Answered` and `Faulted`
/// only at `r`, `Idle` at either, and `Evicted` at `e`, where nothing else comes.
#[derive(Clone, Copy, PartialEq, Eq, Debug)]
pub enum Happened {
    /// An instruction was retired.
    Issued,
    /// An instruction that was fetched behind a taken branch was passed over.
    Bubble,
    /// The next instruction is held, and nothing changed.
    Stalled(Why),
    /// The oldest transaction was answered with data.
    Answered,
    /// The oldest transaction met an absent page. The record was taken before the pending transactions were finished.
    Faulted(Record),
    /// Every page is absent until it is supplied.
    Evicted,
    /// There was nothing to answer or to issue.
    Idle,
    /// The monitor put this byte into the output for a trap, which was retired.
    Served(u8),
    /// The program ended.
    Ended(End),
}
