//! What an event did, in brief.

use m88_event::Why;

/// What an event did, as `Happened` tells it, but for the record of a data fault, which is the last of the board's, and
/// for how the program ended, which the board tells too.
#[derive(Clone, Copy, Debug)]
pub(crate) enum Brief {
    Issued,
    Bubble,
    Stalled(Why),
    Answered,
    Faulted,
    Evicted,
    Idle,
    Served(u8),
    Ended,
}
