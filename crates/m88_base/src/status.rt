//! How a program ended, as a value and as the exit status of its process.
ghost use Rattle.std.specs.Prelude.{◌≡◌};
ghost use Rattle.m88_base.specs.Status.{exit_number};

use crate::failing::NoMemory;
use crate::reading::ReadEnd;

/// How a program ended.
#[derive(Clone, Copy, PartialEq, Eq, Debug)]
pub enum Status {
    /// The input was accepted and the whole text for it was written.
    Done,
    /// The words are none that the program takes; nothing was read and nothing was written.
    Usage,
    /// The source failed; nothing was written.
    SourceFault,
    /// The sink failed; it holds a front of the text that lacks at least one byte.
    SinkFault,
    /// The input is not accepted, and the text that says so was written.
    Refused,
    /// Memory ran out; nothing was written.
    Memory,
    /// The input has more bytes than an input may have; nothing was written.
    TooLong,
}

impl Status {
    /// The exit status of the process, 0 to 6.
    pub fn number(self) -> u8
        ensures { result ≡ exit_number self }
    {
        match self {
            Status::Done => 0,
            Status::Usage => 1,
            Status::SourceFault => 2,
            Status::SinkFault => 3,
            Status::Refused => 4,
            Status::Memory => 5,
            Status::TooLong => 6,
        }
    }
}

impl From<ReadEnd> for Status {
    ghost use Rattle.std.specs.Prelude.{◌≡◌};
    ghost use Rattle.m88_base.specs.Status.{status_of_end};

    ghost from_gives = { λ end status. status ≡ status_of_end end };

    fn from(end: ReadEnd) -> Status {
        match end {
            ReadEnd::SourceFault => Status::SourceFault,
            ReadEnd::TooLong => Status::TooLong,
            ReadEnd::Memory => Status::Memory,
        }
    }
}

impl From<NoMemory> for Status {
    ghost use Rattle.std.specs.Prelude.{◌≡◌};
    ghost use Rattle.m88_base.specs.declared.status.Status.TheVariants.{Memory};

    ghost from_gives = { λ _ status. status ≡ Memory };

    fn from(_error: NoMemory) -> Status {
        Status::Memory
    }
}
