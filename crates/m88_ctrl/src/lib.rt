//! The control registers: what an exception saves, what a return from it hands back, and the processor's
//! status with the carry and MXM.
#![tactic(auto)]

mod control;
pub mod cr;
mod frame;

pub use control::Control;
pub use frame::{Frame, Restart};
