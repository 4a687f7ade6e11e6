//! What a paged run comes to.

use crate::store::StoreError;
use m88_base::NoMemory;
use m88_event::Outcome;
use thiserror::Error;

/// What a paged run came to.
#[derive(Drop, Debug)]
pub struct Paged {
    /// The outcome of the run, with the words that changed as the store has them.
    pub outcome: Outcome,
    /// How often a page came into a frame.
    pub ins: u32,
    /// How often a dirty page went out to the store.
    pub outs: u32,
}

/// Why a paged run came to nothing.
#[derive(Clone, Copy, PartialEq, Eq, Debug, Error)]
pub enum PageEnd {
    /// The store of pages failed.
    #[error("the store of pages failed")]
    StoreFault,
    /// There was no memory.
    #[error("memory ran out")]
    Memory,
}

impl From<StoreError> for PageEnd {
    ghost use Rattle.std.specs.Prelude.{◌≡◌};
    ghost use Rattle.m88_pager.specs.Ends.{end_by_store};

    ghost from_gives = { λ error end. end ≡ end_by_store error };

    fn from(error: StoreError) -> PageEnd {
        match error {
            StoreError::Failed => PageEnd::StoreFault,
            StoreError::Memory => PageEnd::Memory,
        }
    }
}

impl From<NoMemory> for PageEnd {
    ghost use Rattle.std.specs.Prelude.{◌≡◌};
    ghost use Rattle.m88_pager.specs.declared.paged.PageEnd.TheVariants as page_end;

    ghost from_gives = { λ _ end. end ≡ page_end.Memory };

    fn from(_: NoMemory) -> PageEnd {
        PageEnd::Memory
    }
}
