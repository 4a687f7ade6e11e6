//! The answers that have nothing to tell but that a call failed.

use std::alloc::AllocError;
use thiserror::Error;

/// A read or a write that gave or took nothing, since its source or sink failed.
#[derive(Clone, Copy, PartialEq, Eq, Debug, Error)]
#[error("a source or a sink failed")]
pub struct Failed;

/// There was no memory for what a call makes.
#[derive(Clone, Copy, PartialEq, Eq, Debug, Error)]
#[error("memory ran out")]
pub struct NoMemory;

impl From<AllocError> for NoMemory {
    fn from(_: AllocError) -> NoMemory {
        NoMemory
    }
}
