//! Programs that share a board by interrupts. `Tasks::new` puts the first of one to eight images on a board and keeps a
//! context of each other; `event` makes the event of a letter, by which the program that runs goes on or the next one
//! runs; `run` makes those of a schedule and then goes on until every program is over. What a program comes to is what
//! its own run comes to under the letters that it took.
#![tactic(auto)]

// the letters of a shared run
mod letter;
mod schedule;

// the programs, and what their events do
mod programs;
mod tasks;
mod turned;

// what it comes to
mod shared;

pub use letter::ShareLetter;
pub use schedule::ShareSchedule;
pub use shared::{Shared, Switch};
pub use tasks::Tasks;
pub use turned::Turned;
