//! Why a text isn't that of sound objects.

ghost use Rattle.std.specs.Prelude.{◌≡◌};
ghost use Rattle.m88_link.specs.Reasons.{object_reason};
ghost use Rattle.m88_link.specs.declared.object_fault.ObjectFault.TheVariants.{Memory as memory};

use std::alloc::{AllocError, AllocFailed};
use std::error::Error;
use std::fmt;

/// Why a text isn't that of one or more sound objects.
#[derive(Clone, Copy, PartialEq, Eq, Debug)]
pub enum ObjectFault {
    /// The first line that the text of no objects continues; the line behind the last one where the
    /// text stops early.
    Form { line: u32 },
    /// The first line that gives a section, a symbol or a relocation by which its object isn't sound.
    Range { line: u32 },
    /// Memory ran out.
    Memory,
}

impl ObjectFault {
    /// The reason in the words of a refused line.
    #[tactic(auto, unfolding(crate::specs::Reasons::object_reason))]
    pub fn reason(self) -> &'static str
        ensures { result.now ≡ object_reason self }
    {
        match self {
            ObjectFault::Form { .. } => "form",
            ObjectFault::Range { .. } => "range",
            ObjectFault::Memory => "out of memory",
        }
    }
}

impl fmt::Display for ObjectFault {
    ghost use Rattle.std.specs.Prelude.{Some};
    ghost use Rattle.m88_link.specs.Reasons.{object_fault_text};

    ghost output = { λ fault. Some (object_fault_text fault) };

    #[tactic(auto, unfolding(crate::specs::Reasons::object_fault_text))]
    fn fmt<W: fmt::Write>(&self, f: &mut fmt::Formatter<W>) -> fmt::Result {
        match self {
            ObjectFault::Form { line } | ObjectFault::Range { line } => {
                let col = 1_u32;
                write!(f, "{line}:{col} {}", self.reason())
            }
            ObjectFault::Memory => f.write_str(self.reason()),
        }
    }
}

impl Error for ObjectFault {}

impl From<AllocError> for ObjectFault {
    ghost from_gives = { λ _ e. e ≡ memory };

    fn from(_e: AllocError) -> ObjectFault {
        ObjectFault::Memory
    }
}

impl<T: Drop> From<AllocFailed<T>> for ObjectFault {
    ghost from_gives = { λ _ e. e ≡ memory };

    fn from(_e: AllocFailed<T>) -> ObjectFault {
        ObjectFault::Memory
    }
}
