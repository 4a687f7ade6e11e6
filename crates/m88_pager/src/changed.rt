//! The words of memory that changed, as a store has them.

ghost use Rattle.std.specs.Prelude.{ℕ, Bool, true, ◌≡◌, ◌+◌, ◌*◌, ◌^◌, ◌++◌, ◌∷◌, [], ◌≤◌, IfNone, IfOk, IfSome, OnOk};
ghost use Rattle.std.specs.BTreeSet.{contains};
ghost use Rattle.std.specs.Ordering.{nat_cmp};
ghost use Rattle.m88_base.specs.Pages.{IsPage, page_count};
ghost use Rattle.m88_isa.specs.Bus.{changed_among};
ghost use Rattle.m88_mem.specs.DataBus.{image_bytes, page_words};
ghost use Rattle.m88_pager.specs.Inside.Bytes.{AreWords, in_bytes};
ghost use Rattle.m88_pager.specs.Inside.Calls.{ReadsStore};
ghost use Rattle.m88_pager.specs.Inside.Told.{AreChanged, ArePagesOf, HasNone, IsNextHeld};
ghost use Rattle.m88_pager.specs.Pages.{page_of};

use crate::original::original_page;
use crate::paged::PageEnd;
use crate::store::PageStore;
use crate::word::word_at;
use m88_base::{Image, NoMemory, PAGE_BYTES, PAGE_COUNT, PAGE_WORDS};
use std::alloc::Global;
use std::collections::BTreeSet;

/// The words of the pages that a store holds that differ from those of memory at first, in order of address.
pub(crate) fn changed_words<P: PageStore>(
    alloc: Global,
    store: &mut P,
    image: &Image,
    held: &BTreeSet<u32>,
) -> Result<Vec<(u32, u32)>, PageEnd>
    ensures changed { IfOk result (λ words. AreChanged (image_bytes image.now)
        (λ q. contains nat_cmp held.now q) (P.pages store.old) (2 ^ 30) words.items) }
    ensures store { ReadsStore (P.pages store.old) (P.pages store.new) (P.writes store.old)
        (P.writes store.new) (P.faults store.old) (P.faults store.new) result }
{
    let mut changed = Vec::new(alloc);
    let mut from = 0;
    while let Some(page) = next_held(held, from) {
        append_page(alloc, store, image, page, &mut changed)?;
        from = page + 1;
    }
    Ok(changed)
}

/// The first page of a set from a number on.
fn next_held(held: &BTreeSet<u32>, from: u32) -> Option<u32>
    requires { from ≤ page_count }
    ensures next { IfSome result (IsNextHeld (λ q. contains nat_cmp held.now q) from) }
    ensures none { IfNone result (HasNone (λ q. contains nat_cmp held.now q) from page_count) }
{
    held.range(from..PAGE_COUNT as u32).next().copied()
}

/// Appends those of a page that the store holds.
fn append_page<P: PageStore>(
    alloc: Global,
    store: &mut P,
    image: &Image,
    page: u32,
    changed: &mut Vec<(u32, u32)>,
) -> Result<(), PageEnd>
    requires { IsPage page }
    ensures changed { OnOk result ((held : ℕ → Bool) → held page ≡ true
        → AreChanged (image_bytes image.now) held (P.pages store.old) (page * page_words)
        changed.old.items
        → AreChanged (image_bytes image.now) held (P.pages store.old) ((page + 1) * page_words)
        changed.new.items) }
    ensures store { ReadsStore (P.pages store.old) (P.pages store.new) (P.writes store.old)
        (P.writes store.new) (P.faults store.old) (P.faults store.new) result }
{
    let before = original_page(alloc, image, page)?;
    let mut after = original_page(alloc, image, page)?;
    store.read(page, after.as_mut_slice())?;
    append_changed(changed, page, &before, &after)?;
    Ok(())
}

/// Appends the words of a page that differ before and after.
fn append_changed(
    changed: &mut Vec<(u32, u32)>,
    page: u32,
    before: &[u8],
    after: &[u8],
) -> Result<(), NoMemory>
    requires { ArePagesOf page before.now after.now }
    ensures { OnOk result ((old new : ℕ → ℕ) → AreWords old → AreWords new
        → before.now ≡ page_of (in_bytes old) page
        → after.now ≡ page_of (in_bytes new) page
        → changed.old.items ≡ changed_among (page * page_words) old new
        → changed.new.items ≡ changed_among ((page + 1) * page_words) old new) }
{
    for place in 0..PAGE_WORDS {
        let word = word_at(after, place as usize * 4);
        if word != word_at(before, place as usize * 4) {
            note(changed, page * PAGE_BYTES + place * 4, word)?;
        }
    }
    Ok(())
}

/// Appends a word with its address.
fn note(changed: &mut Vec<(u32, u32)>, addr: u32, word: u32) -> Result<(), NoMemory>
    ensures { OnOk result (changed.new.items ≡ changed.old.items ++ (addr, word) ∷ []) }
{
    changed.push((addr, word)).or(Err(NoMemory))
}
