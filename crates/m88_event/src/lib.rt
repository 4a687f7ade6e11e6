//! The timeline of a run on the board: schedules of letters, the events that they make, and what a run comes to.
//! The definitions in `specs/` say it over the history of the sequential machine, with a count of the instructions
//! that are retired and one of the transactions that are done. That what a board looks like moves along them, and that
//! every run is over, stands in `proofs/`; the calls of a board promise both.
#![tactic(auto)]

// the letters of a run
mod letter;
mod reading;
mod schedule;

// what its events do
mod happened;
mod record;

// what it comes to
mod outcome;

pub use happened::{End, Happened, Why};
pub use letter::Letter;
pub use outcome::Outcome;
pub use reading::letters_in;
pub use record::Record;
pub use schedule::Schedule;
