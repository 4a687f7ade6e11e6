//! Why an S-record text is refused.

use m88_base::{Hex2, Hex8};
use std::error::Error;
use std::fmt;

/// The column that each fault is told at.
const FIRST_COLUMN: u32 = 1;

/// The first line that can't be taken, and why.
#[derive(Clone, Copy, PartialEq, Eq, Debug)]
pub struct SrecFault {
    /// The line's number from 1, that behind the last line where the end record is missing, and 0 where memory ran
    /// out.
    pub line: u32,
    /// The reason.
    pub kind: SrecKind,
}

impl fmt::Display for SrecFault {
    ghost use Rattle.std.specs.Prelude.{Some};
    ghost use Rattle.m88_base.specs.Refused.{placed_reason};
    ghost use Rattle.m88_srec.specs.Reasons.{srec_reason};

    ghost output = { λ fault. Some (placed_reason fault.line 1 (srec_reason fault.kind)) };

    fn fmt<W: fmt::Write>(&self, f: &mut fmt::Formatter<W>) -> fmt::Result {
        write!(f, "{}:{} {}", self.line, FIRST_COLUMN, self.kind)
    }
}

impl Error for SrecFault {}

/// The reasons for which an S-record text is refused. Within a line the first of them that applies counts.
#[derive(Clone, Copy, PartialEq, Eq, Debug)]
pub enum SrecKind {
    /// A line that isn't empty stands behind the end record.
    AfterEnd,
    /// The line isn't an `S`, a type digit of 0 to 3, 5 or 7 to 9, and one or more pairs of hexadecimal digits.
    Form,
    /// The count differs from the number of bytes that follow it, or there are too few of these for address and sum,
    /// or a record that has no data has some.
    Count {
        /// The count as it is written.
        written: u8,
        /// The number of bytes that follow.
        found: u32,
    },
    /// The sum isn't that of the bytes before it.
    Sum {
        /// The sum as it is written.
        written: u8,
        /// The sum of the bytes.
        computed: u8,
    },
    /// A count record tells another number than that of the records of types 1 to 3 before it.
    CountRecord {
        /// The number that it tells.
        written: u32,
        /// The number of records.
        found: u32,
    },
    /// A byte would lie past the last address, or there would be more than 1,048,576 bytes.
    TooLarge,
    /// The least address of the record that has a byte already.
    Overlap(u32),
    /// No end record came.
    NoEnd,
    /// There was no memory for the bytes.
    Memory,
}

impl fmt::Display for SrecKind {
    ghost use Rattle.std.specs.Prelude.{Some};
    ghost use Rattle.m88_srec.specs.Reasons.{srec_reason};

    ghost output = { λ kind. Some (srec_reason kind) };

    #[tactic(auto, unfolding(crate::specs::Reasons::srec_reason))]
    fn fmt<W: fmt::Write>(&self, f: &mut fmt::Formatter<W>) -> fmt::Result {
        match self {
            SrecKind::AfterEnd => f.write_str("after end"),
            SrecKind::Form => f.write_str("form"),
            SrecKind::Count { written, found } => write!(
                f,
                "count written {written} found {found}"
            ),
            SrecKind::Sum { written, computed } => {
                let (written, computed) = (Hex2(*written), Hex2(*computed));
                write!(f, "sum written {written} computed {computed}")
            }
            SrecKind::CountRecord { written, found } => {
                write!(f, "count record written {written} found {found}")
            }
            SrecKind::TooLarge => f.write_str("too large"),
            SrecKind::Overlap(at) => write!(f, "overlap {}", Hex8(*at)),
            SrecKind::NoEnd => f.write_str("no end"),
            SrecKind::Memory => f.write_str("out of memory"),
        }
    }
}

impl Error for SrecKind {}
