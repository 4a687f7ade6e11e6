//! What every other crate stands on: the numbers of registers, where bytes come from and go to and how a program
//! ends with them, and the image that a program is linked into.
#![tactic(auto)]

// Registers, instruction pointers, and what the data unit is asked for.
mod absent;
mod reg;
mod slot;
mod triple;

// Where bytes come from and go to, and how a program ends that reads and writes them.
mod failing;
mod input;
mod mem_sink;
mod mem_source;
mod pieces;
mod reading;
mod reply;
mod sink;
mod source;
mod status;
mod std_edge;
mod writing;

// Parts of texts.
mod cut;
mod digit;
mod fixup;
mod hex;
mod line;
mod listed;
mod name;
mod numerals;
mod parting;
mod refused;
mod words;

// The image of a program.
mod block;
mod blocks;
mod image;
mod segment;
mod segments;

pub use absent::{Absent, PAGE_BYTES, PAGE_COUNT, PAGE_WORDS};
pub use cut::split_at_byte;
pub use digit::digit_value;
pub use failing::{Failed, NoMemory};
pub use fixup::{Fixup, Kind};
pub use hex::{Hex2, Hex8, hex_digit, hex8_of, push_hex2, push_hex8, word_digits};
pub use image::{FIRST_TEXT, Image, ImageFault, MOST_BYTES};
pub use input::read_then;
pub use line::{first_line, line_numbered};
pub use listed::Listed;
pub use mem_sink::MemSink;
pub use mem_source::MemSource;
pub use name::{Name, continues_name};
pub use numerals::{decimal_in, number_in, push_decimal};
pub use parting::{Parted, Unparted, parted_at};
pub use pieces::is_failing;
pub use reading::{MOST_INPUT, ReadEnd, read_all};
pub use refused::{Refusal, Refused, push_refused};
pub use reg::Reg;
pub use reply::{Answer, Reply, accept, refuse};
pub use sink::Sink;
pub use slot::Slot;
pub use source::Source;
pub use status::Status;
pub use std_edge::{StdSink, StdSource};
pub use triple::{NO_TRIPLE, Triple};
pub use words::first_word;
pub use writing::{SinkFault, write_all};
