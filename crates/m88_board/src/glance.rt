//! What a watch notes of a board.

use m88_iunit::Slot;

/// What a watch notes of a board after an event.
#[derive(Clone, Copy, PartialEq, Eq, Debug)]
pub struct Glance {
    /// The events so far.
    pub events: u64,
    /// The instructions that were retired.
    pub issued: u32,
    /// The transactions that were answered or finished.
    pub done: u32,
    /// NIP.
    pub next: Slot,
}
