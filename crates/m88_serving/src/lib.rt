//! What a handler of the data access exception must come to: the record of a data fault and words of data memory are
//! read, and the accesses, registers, words and slots that the service of `m88`'s monitor gives are written.
#![tactic(auto)]

// What an input tells, and why it is refused.
mod access;
mod fault;
mod judging;
mod lines;
mod loads;
mod naming;
mod reading;
mod telling;

// What is written.
mod entering;
mod reply;
mod serving;
mod text;

// The top call.
mod program;

pub use entering::control_left;
pub use fault::{ServeFault, ServeKind};
pub use judging::is_status;
pub use lines::last_word;
pub use program::{m88serve, serve_case};
pub use telling::{ToldCase, Untold, told_case};
pub use text::push_slots;
