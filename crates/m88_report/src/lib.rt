//! The report of a run: what a run came to, as lines of text. The lines that other texts have too stand by themselves.
#![tactic(auto)]

mod lines;
mod writer;

pub use lines::{
    push_carry, push_count, push_end, push_named, push_record, push_registers, push_word,
    push_words,
};
pub use writer::report;
