//! One stage of the data unit.

use m88_base::{NO_TRIPLE, Triple};

/// The three words of a transaction that is pending.
#[derive(Clone, Copy, PartialEq, Eq, Debug)]
pub struct Stage {
    /// DMT, DMD and DMA.
    pub words: Triple,
}

impl Default for Stage {
    ghost use Rattle.std.specs.Prelude.{◌≡◌};
    ghost use Rattle.m88_base.specs.Triple.{no_triple};

    ghost is_default = { λ stage. stage.words ≡ no_triple };

    fn default() -> Stage {
        Stage { words: NO_TRIPLE }
    }
}
