//! Why a list of objects has no image.

ghost use Rattle.std.specs.Prelude.{◌≡◌};
ghost use Rattle.m88_link.specs.Faults.{memory_fault};

use m88_base::{Hex8, Name};
use std::alloc::{AllocError, AllocFailed};
use std::error::Error;
use std::fmt;

/// Why objects can't be linked, in the order in which the reasons are tried.
#[derive(Clone, Copy, PartialEq, Eq, Debug)]
pub enum LinkKind {
    /// There are more than 1,048,576 bytes, or text or data reaches past 0xFFFFFFFF.
    TooLarge,
    /// The least address that has two bytes.
    Overlap(u32),
    /// A name that has a global definition already, and the line of that first one.
    Duplicate { name: Name, first: u32 },
    /// A name that neither its own object nor a global symbol defines.
    Undefined(Name),
    /// The displacement in bytes of a branch that is no multiple of 4 or doesn't fit its field.
    TooFar(i32),
    /// Memory ran out.
    Memory,
}

impl fmt::Display for LinkKind {
    ghost use Rattle.std.specs.Prelude.{Some};
    ghost use Rattle.m88_link.specs.Reasons.{link_reason};

    ghost output = { λ kind. Some (link_reason kind) };

    #[tactic(auto, unfolding(crate::specs::Reasons::link_reason))]
    fn fmt<W: fmt::Write>(&self, f: &mut fmt::Formatter<W>) -> fmt::Result {
        match self {
            LinkKind::TooLarge => f.write_str("too large"),
            LinkKind::Overlap(at) => write!(f, "overlap {}", Hex8(*at)),
            LinkKind::Duplicate { name, first } => write!(f, "duplicate {name} first at {first}"),
            LinkKind::Undefined(name) => write!(f, "undefined {name}"),
            LinkKind::TooFar(distance) => write!(f, "too far {distance}"),
            LinkKind::Memory => f.write_str("out of memory"),
        }
    }
}

impl Error for LinkKind {}

/// The first reason why objects can't be linked, with the line and column that it is told at. Out of
/// memory has line 0 and column 0.
#[derive(Clone, Copy, PartialEq, Eq, Debug)]
pub struct LinkFault {
    /// The line, from 1.
    pub line: u32,
    /// The column, from 1.
    pub col: u32,
    /// The reason.
    pub kind: LinkKind,
}

impl fmt::Display for LinkFault {
    ghost use Rattle.std.specs.Prelude.{Some};
    ghost use Rattle.m88_base.specs.Refused.{placed_reason};
    ghost use Rattle.m88_link.specs.Reasons.{link_reason};

    ghost output = { λ fault. Some (placed_reason fault.line fault.col (link_reason fault.kind)) };

    fn fmt<W: fmt::Write>(&self, f: &mut fmt::Formatter<W>) -> fmt::Result {
        write!(f, "{}:{} {}", self.line, self.col, self.kind)
    }
}

impl Error for LinkFault {}

/// There are too many bytes, told at line 1, column 1.
pub const TOO_LARGE: LinkFault = LinkFault {
    line: 1,
    col: 1,
    kind: LinkKind::TooLarge,
};

/// Memory ran out.
pub const OUT_OF_MEMORY: LinkFault = LinkFault {
    line: 0,
    col: 0,
    kind: LinkKind::Memory,
};

impl From<AllocError> for LinkFault {
    ghost from_gives = { λ _ e. e ≡ memory_fault };

    fn from(_e: AllocError) -> LinkFault {
        OUT_OF_MEMORY
    }
}

impl<T: Drop> From<AllocFailed<T>> for LinkFault {
    ghost from_gives = { λ _ e. e ≡ memory_fault };

    fn from(_e: AllocFailed<T>) -> LinkFault {
        OUT_OF_MEMORY
    }
}
