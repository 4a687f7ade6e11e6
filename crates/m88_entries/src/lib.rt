//! The lines of a data fault that a handler takes, and those of its entry: a fault with registers is read, and how the
//! entry went and what the handler left is written.
#![tactic(auto)]

// What lines tell.
mod registers;
mod splitting;
mod told;

// What is written.
mod left;
mod text;

pub use left::entry_text;
pub use told::{ToldFault, told_fault};
