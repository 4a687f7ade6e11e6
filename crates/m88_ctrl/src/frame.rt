//! What an exception saves, and what a return from it hands back.

use m88_base::Triple;

/// What an exception saves beside the status.
#[derive(Clone, Copy, PartialEq, Eq, Debug)]
pub struct Frame {
    /// The registers that wait, a bit for each.
    pub ssbr: u32,
    /// The word of the pointer to the instruction retired last.
    pub sxip: u32,
    /// The word of the pointer to the next instruction.
    pub snip: u32,
    /// The word of the pointer to the instruction being fetched.
    pub sfip: u32,
    /// The words of the data transactions that are pending, the oldest first.
    pub triples: [Triple; 3],
}

/// What a return from an exception goes on by.
#[derive(Clone, Copy, PartialEq, Eq, Debug)]
pub struct Restart {
    /// The registers that wait, a bit for each.
    pub ssbr: u32,
    /// The word of the pointer to the next instruction.
    pub snip: u32,
    /// The word of the pointer to the instruction being fetched.
    pub sfip: u32,
}
