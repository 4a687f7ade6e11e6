//! The answer of a register that waits.

use thiserror::Error;

/// The register waits for a load that isn't answered.
#[derive(Clone, Copy, PartialEq, Eq, Debug, Error)]
#[error("the register waits for a load")]
pub struct Busy;
