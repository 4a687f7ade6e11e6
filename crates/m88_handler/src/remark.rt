//! How an entry of a handler went.

use crate::cause::Cause;
use crate::judging::Difference;

/// How an entry of a handler went.
#[derive(Clone, Copy, PartialEq, Eq, Debug)]
pub enum Remark {
    /// It returned, and left what the monitor's service would have left.
    Kept,
    /// It returned, and this is the first difference of what it left.
    Differs(Difference),
    /// It stopped the run.
    Stops,
    /// It failed, at a byte address of its own.
    Fails(Cause, u32),
}
