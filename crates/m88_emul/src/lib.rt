//! Software that does for a program what the chip leaves to it: signed division of negative numbers, and loads and
//! stores of halves, words and doubles at addresses that aren't multiples of their size. `emulate` does one
//! instruction. The definitions in `specs/` say it over the history and the timeline of a machine with that software
//! behind it.
#![tactic(auto)]

// one instruction
mod bytes;
mod emulator;
mod places;
mod quotient;
mod task;

// a whole run
mod emulation;
mod running;

pub use emulation::{EmulOutcome, Emulation};
pub use emulator::{Emulated, emulate};
pub use running::run;
