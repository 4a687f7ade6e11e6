//! Why a text isn't the beginning of a trace.

use m88_base::NoMemory;
use std::alloc::AllocError;
use thiserror::Error;

/// Why a text isn't the beginning of a trace.
#[derive(Clone, Copy, PartialEq, Eq, Debug, Error)]
pub enum TraceFault {
    /// The number of the first line, from 1, that isn't the trace's: it has other bytes or no LF, or it stands behind
    /// the line of the end.
    #[error("line {line} differs")]
    Differs { line: u32 },
    /// There was no memory to follow the program.
    #[error("memory ran out")]
    Memory,
}

impl From<NoMemory> for TraceFault {
    ghost use Rattle.std.specs.Prelude.{◌≡◌};
    ghost use Rattle.m88_trace.specs.declared.fault.TraceFault.TheVariants as trace_fault;

    ghost from_gives = { λ _ fault. fault ≡ trace_fault.Memory };

    fn from(_: NoMemory) -> TraceFault {
        TraceFault::Memory
    }
}

impl From<AllocError> for TraceFault {
    ghost use Rattle.std.specs.Prelude.{◌≡◌};
    ghost use Rattle.m88_trace.specs.declared.fault.TraceFault.TheVariants as trace_fault;

    ghost from_gives = { λ _ fault. fault ≡ trace_fault.Memory };

    fn from(_: AllocError) -> TraceFault {
        TraceFault::Memory
    }
}
