//! Why a source has no unit, and where.
ghost use Rattle.std.specs.Prelude.{◌≡◌};
ghost use Rattle.m88_parse.specs.Fault.{out_of_memory, reason};

use std::alloc::{AllocError, AllocFailed};
use std::error::Error;
use std::fmt;

/// Why a source has no unit.
#[derive(Clone, Copy, PartialEq, Eq, Debug)]
pub enum ParseKind {
    /// A byte outside comments that is neither 32 to 126 nor a tab.
    NotAscii,
    /// What stands here can't stand here.
    Syntax,
    /// A name that is no mnemonic, directive, register, bit or condition where one is wanted.
    NoSuchName,
    /// A number outside its range, or a name above 64 bytes.
    OutOfRange,
    /// Memory ran out.
    Memory,
}

impl ParseKind {
    /// The reason in the words of a refused line.
    #[tactic(auto, unfolding(crate::specs::Fault::reason))]
    pub fn reason(self) -> &'static str
        ensures { result.now ≡ reason self }
    {
        match self {
            ParseKind::NotAscii => "not ascii",
            ParseKind::Syntax => "syntax",
            ParseKind::NoSuchName => "no such name",
            ParseKind::OutOfRange => "out of range",
            ParseKind::Memory => "out of memory",
        }
    }
}

impl fmt::Display for ParseKind {
    ghost use Rattle.std.specs.Prelude.{Some};
    ghost use Rattle.m88_parse.specs.Fault.{reason};

    ghost output = { λ kind. Some (reason kind) };

    fn fmt<W: fmt::Write>(&self, f: &mut fmt::Formatter<W>) -> fmt::Result {
        f.write_str(self.reason())
    }
}

impl Error for ParseKind {}

/// The first fault of a source: its line and column, both from 1, and its kind. Memory that ran out
/// has line 0 and column 0.
#[derive(Clone, Copy, PartialEq, Eq, Debug)]
pub struct ParseFault {
    pub line: u32,
    pub col: u32,
    pub kind: ParseKind,
}

impl fmt::Display for ParseFault {
    ghost use Rattle.std.specs.Prelude.{Some};
    ghost use Rattle.m88_base.specs.Refused.{placed_reason};
    ghost use Rattle.m88_parse.specs.Fault.{reason};

    ghost output = { λ fault. Some (placed_reason fault.line fault.col (reason fault.kind)) };

    fn fmt<W: fmt::Write>(&self, f: &mut fmt::Formatter<W>) -> fmt::Result {
        write!(f, "{}:{} {}", self.line, self.col, self.kind)
    }
}

impl Error for ParseFault {}

/// Memory ran out, which has no place in a source.
const OUT_OF_MEMORY: ParseFault = ParseFault {
    line: 0,
    col: 0,
    kind: ParseKind::Memory,
};

impl From<AllocError> for ParseFault {
    ghost from_gives = { λ _ e. e ≡ out_of_memory };

    fn from(_e: AllocError) -> ParseFault {
        OUT_OF_MEMORY
    }
}

impl<T: Drop> From<AllocFailed<T>> for ParseFault {
    ghost from_gives = { λ _ e. e ≡ out_of_memory };

    fn from(_e: AllocFailed<T>) -> ParseFault {
        OUT_OF_MEMORY
    }
}
