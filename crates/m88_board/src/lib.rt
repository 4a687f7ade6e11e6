//! The board: instruction unit, data unit, register file, memory, control registers and monitor as the parts of one
//! machine, with its output, its counts and the records of its data faults. `Board::new` makes one over an image,
//! `event` makes the event of a letter, and a `Walk` those of the letters of a run, one by one or until it is to stop;
//! `run` is a walk to the end of a run, and `drain` makes the events that leave nothing pending. A `Watch` is shown the
//! board after each event of these, and `Walk::next_told` tells what the instruction does that goes on. `into_parts`
//! takes a board whose program has ended into its `Parts`, `into_fault` one that meets a data fault, and
//! `into_parts_midway` one between two instructions; `Board::begin` and `resume` make a board that goes on from parts.
//! All else tells what the board shows.
#![tactic(auto)]

mod board;
mod book;
mod parts;

// programs that aren't running
mod context;

// along the letters of a run
mod brief;
mod route;
mod told;
mod until;
mod walk;

// its parts at work together
mod accesses;
mod serving;
mod sharing;
mod slots;

// who watches it
mod glance;
mod mem_watch;
mod watch;

pub use board::Board;
pub use book::Book;
pub use context::{Context, NotEmpty, Saved};
pub use glance::Glance;
pub use m88_event::{End, Happened, Letter, Outcome, Record, Schedule, Why};
pub use mem_watch::MemWatch;
pub use parts::Parts;
pub use told::Told;
pub use until::Until;
pub use walk::Walk;
pub use watch::{Unwatched, Watch};
