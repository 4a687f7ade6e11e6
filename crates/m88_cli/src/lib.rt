//! The top call of the program `m88`: a command is carried out between its words, a source of bytes, a sink and a watch.
#![tactic(auto)]

mod program;

pub use m88_base::Status;
pub use m88_commands::{
    Command, FORMS, Form, MOST_FRAMES, MOST_INPUT, MOST_LIMIT, MOST_STATEMENTS, Reads,
    spelled as command,
};
pub use program::{answer_command, m88};
