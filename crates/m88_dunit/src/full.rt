//! The answer of a data unit without room.

use thiserror::Error;

/// The data unit has no room for the accesses.
#[derive(Clone, Copy, PartialEq, Eq, Debug, Error)]
#[error("the data unit has no room for the accesses")]
pub struct Full;
