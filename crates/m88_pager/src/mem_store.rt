//! A store of pages in memory that fails where it is told to.

ghost use Rattle.std.specs.Prelude.{ℕ, ◌≡◌, Some, IfOk, IfErr, IfSome, length};
ghost use Rattle.std.specs.BTreeMap.{get as get_page};
ghost use Rattle.std.specs.FinMap.{empty, get};
ghost use Rattle.std.specs.Ordering.{nat_cmp};
ghost use Rattle.m88_base.specs.Pages.{page_bytes};
ghost use Rattle.m88_pager.specs.MemoryPages.{IsCallCounted, held_in};
ghost use Rattle.m88_pager.specs.Store.{Finds, IsPageOf, IsPageRead, IsPageWritten};
ghost use Rattle.m88_pager.specs.declared.store.StoreError.TheVariants.{Failed};

use crate::store::{PageStore, StoreError};
use m88_base::{NoMemory, is_failing};
use std::alloc::Global;
use std::collections::BTreeMap;
use std::marker::Model;

/// A store of pages in memory. It fails in chosen calls. A write answers that there is no memory, and changes no page,
/// where there is none for its page, or where 2^64 - 1 pages were put in before it.
#[derive(Drop, Debug)]
pub struct MemStore {
    alloc: Global,
    pages: BTreeMap<u32, Vec<u8>>,
    failing: Vec<u32>,
    writes: u64,
    calls: u64,
    faults: u64,
}

impl Model for MemStore {
    ghost use Rattle.std.specs.Prelude.{ℕ, ◌≡◌, IfSome, length};
    ghost use Rattle.std.specs.BTreeMap.{get};
    ghost use Rattle.std.specs.Ordering.{nat_cmp};
    ghost use Rattle.m88_base.specs.Pages.{page_bytes};
    ghost use Rattle.m88_pager.specs.MemoryPages.{MemoryPages, held_in, memory_pages_code};

    ghost Value = { MemoryPages };

    ghost coded = { memory_pages_code };

    ghost view = { λ s. record {
      held = held_in s.pages.entries;
      writes = s.writes;
      faults = s.faults;
      calls = s.calls;
      failing = s.failing.items;
    } };

    ghost invariant = { λ s. (page : ℕ) → IfSome (get nat_cmp s.pages page)
        (λ bytes. length bytes.items ≡ page_bytes) };
}

impl MemStore {
    /// A store that holds no page. Its calls are counted from 0, and it fails in those that `failing` lists.
    pub fn new(alloc: Global, failing: &[u32]) -> Result<MemStore, NoMemory>
        ensures { IfOk result (λ store. store ≡ record {
          held = empty;
          writes = 0;
          faults = 0;
          calls = 0;
          failing = failing.now;
        }) }
    {
        let failing = Vec::from_slice(alloc, failing)?;
        Ok(MemStore {
            alloc,
            pages: BTreeMap::new(alloc),
            failing,
            writes: 0,
            calls: 0,
            faults: 0,
        })
    }

    /// Counts a call, which fails where it is to.
    fn count(&mut self) -> Result<(), StoreError>
        ensures counts { IsCallCounted self.old self.new result }
        ensures held { self.new.held ≡ self.old.held }
        ensures writes { self.new.writes ≡ self.old.writes }
        ensures failed { IfErr result (λ error. error ≡ Failed) }
    {
        let fails = is_failing(&self.failing, self.calls);
        self.calls = self.calls.saturating_add(1);
        if fails {
            self.faults = self.faults.saturating_add(1);
            return Err(StoreError::Failed);
        }
        Ok(())
    }
}

impl PageStore for MemStore {
    ghost pages = { λ s. Some s.held };

    ghost writes = { λ s. Some s.writes };

    ghost faults = { λ s. s.faults };

    fn read(&mut self, page: u32, into: &mut [u8]) -> Result<bool, StoreError>
        requires { IsPageOf page into.old }
        ensures read { IsPageRead (Some self.old.held) (Some self.new.held) (Some self.old.writes)
            (Some self.new.writes) self.old.faults self.new.faults page into.old into.new result }
        ensures counts { IsCallCounted self.old self.new result }
    {
        self.count()?;
        Ok(give(&self.pages, page, into))
    }

    fn write(&mut self, page: u32, bytes: &[u8]) -> Result<(), StoreError>
        requires { IsPageOf page bytes.now }
        ensures written { IsPageWritten (Some self.old.held) (Some self.new.held)
            (Some self.old.writes) (Some self.new.writes) self.old.faults self.new.faults page
            bytes.now result }
        ensures counts { IsCallCounted self.old self.new result }
    {
        self.count()?;
        let Ok(copy) = Vec::from_slice(self.alloc, bytes) else {
            return Err(StoreError::Memory);
        };
        // A page that can't be counted isn't put in, so that the count is exact.
        let Some(writes) = self.writes.checked_add(1) else {
            return Err(StoreError::Memory);
        };
        match self.pages.insert(page, copy) {
            Ok(_) => {
                self.writes = writes;
                Ok(())
            }
            Err(_) => Err(StoreError::Memory),
        }
    }
}

/// Copies the bytes of a page where it is among these, and says whether it is.
fn give(pages: &BTreeMap<u32, Vec<u8>>, page: u32, into: &mut [u8]) -> bool
    requires whole { IfSome (get_page nat_cmp pages.now page)
        (λ bytes. length bytes.items ≡ page_bytes) }
    requires size { length into.old ≡ page_bytes }
    ensures { Finds (get (held_in pages.now.entries) page) result into.old into.new }
{
    match pages.get(&page) {
        Some(bytes) => {
            into.copy_from_slice(bytes);
            true
        }
        None => false,
    }
}
