//! The words of the MC88100's instructions, both ways: the word of an instruction, the instruction of
//! a word, and the word that stands in memory as four big-endian bytes.
//! The word table itself is a definition of `m88_isa`.
#![tactic(auto)]

// the word of an instruction
mod codes;
mod encoder;

// the instruction of a word
mod candidate;
mod decoder;

// the word of four bytes
mod bytes;

pub use bytes::word_at;
pub use decoder::{BadWord, decode};
pub use encoder::encode;
