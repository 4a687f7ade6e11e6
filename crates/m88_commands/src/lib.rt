//! The commands of the program: what its words spell, and what each command makes of what a source of bytes gives it, on a
//! board that a watch is shown.
#![tactic(auto)]

// The commands: how each is called, and what it makes of its input.
mod commands;
mod forms;
mod input;
mod reply;

// The words of a command.
mod grammar;
mod limits;
mod pages;

pub use commands::{Command, FORMS, spelled};
pub use forms::{Form, Reads};
pub use limits::{MOST_FRAMES, MOST_INPUT, MOST_LIMIT, MOST_STATEMENTS};
pub use reply::reply_from;
