//! A handler of the data access exception, in MC88100 code: how it is entered, what its instructions do in the
//! supervisor's mode, how it returns, and how what it left differs from what the monitor's own service would have left.
#![tactic(auto)]

// What one instruction does.
mod act;
mod cause;
mod controls;
mod memory;

// Instructions one after the other.
mod handler;
mod machine;

// What the monitor would have left, and how what was left differs from that.
mod judging;
mod remark;
mod serving;

// A data fault that is taken by a handler.
mod entering;

pub use cause::{Cause, Course};
pub use controls::word_of;
pub use entering::{Entry, enter};
pub use handler::Handler;
pub use judging::{Difference, Place};
pub use remark::Remark;
