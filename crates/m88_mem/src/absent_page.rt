//! The answer of an absent page.

use thiserror::Error;

/// The page is absent for the data bus.
#[derive(Clone, Copy, PartialEq, Eq, Debug, Error)]
#[error("the page is absent")]
pub struct AbsentPage;
