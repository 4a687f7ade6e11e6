//! Why a unit can't be assembled.
ghost use Rattle.std.specs.Prelude.{◌≡◌};
ghost use Rattle.m88_asm.specs.Fault.{memory_ran_out};

use m88_base::Name;
use m88_link::LinkFault;
use std::alloc::{AllocError, AllocFailed};
use std::error::Error;
use std::fmt;

/// Why a statement can't be laid out.
#[derive(Clone, Copy, PartialEq, Eq, Debug)]
pub enum AsmKind {
    /// A name that its module has defined before, with the line of the first definition.
    Duplicate { name: Name, first: u32 },
    /// A `.half` off a multiple of 2, a `.word` or an instruction off a multiple of 4.
    Alignment,
    /// The section would pass 1,048,576 bytes or address 0xFFFFFFFF.
    TooLarge,
    /// Memory ran out.
    Memory,
}

impl fmt::Display for AsmKind {
    ghost use Rattle.std.specs.Prelude.{Some};
    ghost use Rattle.m88_asm.specs.Reasons.{asm_reason};

    ghost output = { λ kind. Some (asm_reason kind) };

    #[tactic(auto, unfolding(crate::specs::Reasons::asm_reason))]
    fn fmt<W: fmt::Write>(&self, f: &mut fmt::Formatter<W>) -> fmt::Result {
        match self {
            AsmKind::Duplicate { name, first } => write!(f, "duplicate {name} first at {first}"),
            AsmKind::Alignment => f.write_str("alignment"),
            AsmKind::TooLarge => f.write_str("too large"),
            AsmKind::Memory => f.write_str("out of memory"),
        }
    }
}

impl Error for AsmKind {}

/// The first fault of a unit. Where memory ran out, line and column are 0.
#[derive(Clone, Copy, PartialEq, Eq, Debug)]
pub struct AsmFault {
    /// The line, from 1.
    pub line: u32,
    /// The column, from 1.
    pub col: u32,
    /// The reason.
    pub kind: AsmKind,
}

impl fmt::Display for AsmFault {
    ghost use Rattle.std.specs.Prelude.{Some};
    ghost use Rattle.m88_base.specs.Refused.{placed_reason};
    ghost use Rattle.m88_asm.specs.Reasons.{asm_reason};

    ghost output = { λ fault. Some (placed_reason fault.line fault.col (asm_reason fault.kind)) };

    fn fmt<W: fmt::Write>(&self, f: &mut fmt::Formatter<W>) -> fmt::Result {
        write!(f, "{}:{} {}", self.line, self.col, self.kind)
    }
}

impl Error for AsmFault {}

/// Memory ran out.
const OUT_OF_MEMORY: AsmFault = AsmFault {
    line: 0,
    col: 0,
    kind: AsmKind::Memory,
};

impl From<AllocError> for AsmFault {
    ghost from_gives = { λ _ e. e ≡ memory_ran_out };

    fn from(_e: AllocError) -> AsmFault {
        OUT_OF_MEMORY
    }
}

impl<T: Drop> From<AllocFailed<T>> for AsmFault {
    ghost from_gives = { λ _ e. e ≡ memory_ran_out };

    fn from(_e: AllocFailed<T>) -> AsmFault {
        OUT_OF_MEMORY
    }
}

/// Why a unit has no image.
#[derive(Clone, Copy, PartialEq, Eq, Debug)]
pub enum UnitFault {
    /// The first fault of its statements.
    Asm(AsmFault),
    /// The first refusal of its layout, where no statement has a fault.
    Link(LinkFault),
}

impl fmt::Display for UnitFault {
    ghost use Rattle.std.specs.Prelude.{Some};
    ghost use Rattle.m88_asm.specs.Reasons.{unit_fault_text};

    ghost output = { λ fault. Some (unit_fault_text fault) };

    #[tactic(auto, unfolding(crate::specs::Reasons::unit_fault_text))]
    fn fmt<W: fmt::Write>(&self, f: &mut fmt::Formatter<W>) -> fmt::Result {
        match self {
            UnitFault::Asm(fault) => write!(f, "{fault}"),
            UnitFault::Link(fault) => write!(f, "{fault}"),
        }
    }
}

impl Error for UnitFault {}
