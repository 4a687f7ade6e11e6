//! What a run with emulation comes to.

use m88_base::Listed;
use m88_event::Outcome;

/// An instruction that software did.
#[derive(Clone, Copy, PartialEq, Eq, Debug)]
pub struct Emulation {
    /// The number of the event, from 1.
    pub event: u64,
    /// The byte address of the instruction.
    pub at: u32,
    /// The vector that it raised.
    pub vector: u16,
}

/// What a run came to.
#[derive(Drop, Debug)]
pub struct EmulOutcome {
    /// The outcome of the machine with the software behind it.
    pub outcome: Outcome,
    /// The instructions that software did, in order.
    pub emulated: Listed<Emulation>,
}
