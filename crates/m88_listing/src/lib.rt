//! An assembler's listing of a source: each line with the bytes that it puts where, then the symbols; or the refusal
//! below its line.
#![tactic(auto)]

// What statements put where, what symbols mean, and sums.
mod cursor;
mod entries;
mod layout;
mod slots;
mod standing;
mod sums;

// The text.
mod bare;
mod block;
mod column;
mod columns;
mod listing;
mod refused;
mod rows;

// The top call.
mod program;

pub use program::{list_source, m88list};
