//! The 32 general registers and the scoreboard, which knows of each whether a load into it is under way.
#![tactic(auto)]

mod busy;
mod reg_file;

pub use busy::Busy;
pub use reg_file::RegFile;
