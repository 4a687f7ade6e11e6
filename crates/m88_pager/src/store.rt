//! What holds pages.

ghost use Rattle.std.specs.Prelude.{ℕ, List, Option};
ghost use Rattle.std.specs.FinMap.{FinMap};
ghost use Rattle.std.specs.Ordering.{nat_cmp};
ghost use Rattle.m88_pager.specs.Store.{IsPageOf, IsPageRead, IsPageWritten};

use thiserror::Error;

/// Why a store read or wrote no page.
#[derive(Clone, Copy, PartialEq, Eq, Debug, Error)]
pub enum StoreError {
    /// It failed.
    #[error("the store of pages failed")]
    Failed,
    /// There was no memory for a page.
    #[error("memory ran out")]
    Memory,
}

/// A store of pages of 4,096 bytes by their numbers, each at most 0xFFFFF. A call that answers Ok leaves the count of its
/// faults as it is.
pub trait PageStore {
    // The pages that it holds, where the store tells them.
    ghost pages: { Self → Option (FinMap nat_cmp (List ℕ)) };

    // How often a page was put in, where the store tells it.
    ghost writes: { Self → Option ℕ };

    // How often the store has failed, a count that never falls.
    ghost faults: { Self → ℕ };

    /// Copies the bytes of a page into `into` and answers true, or answers false where the page isn't held, with `into`
    /// as before.
    fn read(&mut self, page: u32, into: &mut [u8]) -> Result<bool, StoreError>
        requires { IsPageOf page into.old }
        ensures { IsPageRead (pages self.old) (pages self.new) (writes self.old) (writes self.new)
            (faults self.old) (faults self.new) page into.old into.new result };

    /// Puts a page in, in place of one of this number. Where it answers an error, the pages are as before.
    fn write(&mut self, page: u32, bytes: &[u8]) -> Result<(), StoreError>
        requires { IsPageOf page bytes.now }
        ensures { IsPageWritten (pages self.old) (pages self.new) (writes self.old)
            (writes self.new) (faults self.old) (faults self.new) page bytes.now result };
}
