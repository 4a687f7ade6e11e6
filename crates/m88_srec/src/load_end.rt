//! Why no image was read from a source.

use crate::fault::SrecFault;
use std::error::Error;
use std::fmt;

/// Why no image was read from a source.
#[derive(Clone, Copy, PartialEq, Eq, Debug)]
pub enum LoadEnd {
    /// The source failed.
    SourceFault,
    /// The source has more bytes than were allowed.
    TooLong,
    /// The source was read to its end, and its text is refused for this fault, its first.
    Refused(SrecFault),
    /// There was no memory for the image.
    Memory,
}

impl fmt::Display for LoadEnd {
    fn fmt<W: fmt::Write>(&self, f: &mut fmt::Formatter<W>) -> fmt::Result {
        match self {
            LoadEnd::SourceFault => f.write_str("the source failed"),
            LoadEnd::TooLong => f.write_str("the source is too long"),
            LoadEnd::Refused(fault) => write!(f, "{fault}"),
            LoadEnd::Memory => f.write_str("memory ran out"),
        }
    }
}

impl Error for LoadEnd {}
