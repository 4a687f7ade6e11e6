//! A handler of one's own, tried: a data fault with registers and a handler's source are read, and what is written tells
//! how the handler's entry went and what it left.
#![tactic(auto)]

// What is asked for.
mod request;

// One entry by a fault that is told.
mod fault;

// The top call.
mod program;

pub use program::{m88super, try_handler};
