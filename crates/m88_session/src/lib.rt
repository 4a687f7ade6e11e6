//! A session with the monitor: the commands of a script, carried out one after the other on one board over the program of
//! the source behind it. Commands are read by its settings and its numbers too.
#![tactic(auto)]

// What a run or a session is asked for, and numbers in words and lines.
mod numbers;
mod settings;

// The script.
mod script;
mod script_line;
mod script_lines;

// The session.
mod monitor;
mod session;

pub use numbers::{decimal_number, hexadecimal_number};
pub use session::run_session;
pub use settings::Settings;
