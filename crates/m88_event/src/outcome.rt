//! What a run came to.

use crate::happened::End;
use crate::record::Record;
use m88_base::Listed;

/// What a run came to.
#[derive(Drop, Debug)]
pub struct Outcome {
    /// How it ended.
    pub end: End,
    /// The instructions that were retired.
    pub retired: u32,
    /// r0 to r31.
    pub regs: [u32; 32],
    /// The carry.
    pub carry: bool,
    /// The output, a byte for each output trap.
    pub out: Listed<u8>,
    /// The words of data memory that differ from those at the start: byte address and word, in order of address.
    pub changed: Listed<(u32, u32)>,
    /// The events that were made.
    pub events: u64,
    /// The transactions that were answered with data.
    pub answers: u32,
    /// A record for each data fault, in order.
    pub records: Listed<Record>,
}
