//! What a person is told of how a command is called; what is taken is for the grammar to say.

/// What a command reads on standard input.
#[derive(Clone, Copy, PartialEq, Eq, Debug)]
pub enum Reads {
    Nothing,
    Source,
    Sources,
    Script,
    Trace,
    Records,
    Objects,
}

/// How a command is called: its name, the words after it, as a person is shown them, with blanks between, and what it
/// reads. A word in brackets may be left out, and stands last.
#[derive(Clone, Copy, Debug)]
pub struct Form(pub &'static str, pub &'static str, pub Reads);
