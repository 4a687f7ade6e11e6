//! Accesses whose data aren't known yet.

use m88_isa::Access;

/// An access whose datum isn't known yet.
#[derive(Clone, Copy, Debug)]
pub struct Waiting {
    pub access: Access,
    /// The index in the text at which its datum is to stand.
    pub at: usize,
}
