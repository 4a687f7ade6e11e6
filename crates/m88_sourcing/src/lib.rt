//! A source that can be edited, from S-records or from a binary: its code with labels, and what isn't code as data that
//! keeps its address. Which words are code is followed from where the program starts.
#![tactic(auto)]

// Which words are code, and what has a name.
mod flow;
mod outline;
mod reaching;
mod said;
mod standing;
mod words;

// The text.
mod item;
mod lines;
mod loose;
mod naming;
mod pieces;
mod source;

// The top call, and what its words say.
mod hint;
mod input;
mod place;
mod program;
mod request;

pub use program::{m88source, source_input};
pub use request::is_request;
pub use said::Said;
pub use source::source_text;
