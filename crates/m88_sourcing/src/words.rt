//! Sets of addresses.
ghost use Rattle.std.specs.Prelude.{◌≡◌, ◌⊎◌, ◌↔◌, ◌*◌, ◌/◌, ◌%◌, ◌^◌, ℕ, false, not, bit_or, ◌<◌, ◌≤◌, IfOk, IfSome, IsTrue, OnOk};
ghost use Rattle.std.specs.FinSet.{contains};
ghost use Rattle.m88_sourcing.specs.Inside.Words.{is_set, near_place, word_row};

use indexmap::IndexMap;
use m88_base::Image;
use std::alloc::{AllocError, Global};
use std::marker::Model;

/// The most addresses, for each byte of an image, over which near rows reach.
const MOST_REACH: usize = 16;

/// A set of addresses. Each 32 of them that are 4 bytes apart, as those of words in turn are, share a row of bits.
/// Rows where most addresses are expected are near: they stand in turn, from a first one on. Others are kept by their
/// numbers.
#[derive(Drop)]
pub(crate) struct Words {
    first: u32,
    near: Vec<u32>,
    others: IndexMap<u32, u32>,
}

impl Model for Words {
    ghost use Rattle.std.specs.Coded.{coded_ℕ};
    ghost use Rattle.std.specs.FinSet.{FinSet, code};
    ghost use Rattle.std.specs.Ordering.{nat_cmp};

    ghost Value = { FinSet nat_cmp };

    ghost coded = { code coded_ℕ };

    ghost use Rattle.m88_sourcing.specs.Inside.Words.{addresses};

    ghost view = { addresses };
}

/// The number of the row of an address.
fn row_of(at: u32) -> u32
    ensures { result ≡ word_row at }
{
    at / 128 + at % 4 * (1 << 25)
}

/// Whether the bit of an address is set, in the bits of its row.
fn is_set(bits: u32, at: u32) -> bool
    ensures { result ≡ is_set bits at }
{
    (bits >> (at / 4 % 32)) % 2 == 1
}

/// Sets the bit of an address in the bits of its row. Whether it wasn't set.
fn set_bit(bits: &mut u32, at: u32) -> bool
    ensures new { result ≡ not (is_set bits.old at) }
    ensures has { bits.new ≡ bit_or bits.old (1 * 2 ^ (at / 4 % 32) % 2 ^ 32) }
{
    let was = is_set(*bits, at);
    *bits |= 1 << (at / 4 % 32);
    !was
}

/// The place of a row among so many near ones, where it is one: they begin with the first.
fn near_place(first: u32, rows: usize, row: u32) -> Option<usize>
    ensures place { result ≡ near_place first rows row }
    ensures within { IfSome result (λ k. k < rows) }
{
    if first <= row && ((row - first) as usize) < rows {
        Some((row - first) as usize)
    } else {
        None
    }
}

/// The part of an image that has the most bytes: its first address, and how many bytes it has.
fn longest_part(image: &Image) -> (u32, usize)
    ensures { result.1 ≤ 2 ^ 32 }
{
    let mut longest = (0, 0);
    for index in 0..image.part_count() {
        let (at, bytes) = image.part(index);
        if longest.1 < bytes.len() {
            longest = (at, bytes.len());
        }
    }
    longest
}

/// The addresses from the first byte of an image to its last one, where there are at most `MOST_REACH` of them for each
/// byte: the first of them, and how many they are. Else those of its longest part.
fn near_addresses(image: &Image) -> (u32, usize)
    ensures { result.1 ≤ 2 ^ 32 }
{
    let count = image.part_count();
    if count == 0 {
        return (0, 0);
    }
    let (first, _) = image.part(0);
    let (last, bytes) = image.part(count - 1);
    let extent = (last as usize + bytes.len()).saturating_sub(first as usize);
    if extent <= MOST_REACH * image.len() {
        (first, extent)
    } else {
        longest_part(image)
    }
}

impl Words {
    /// No address, with near rows for the words of an image.
    pub fn new(alloc: Global, image: &Image) -> Result<Words, AllocError>
        ensures { IfOk result (λ words. (a : ℕ) → contains words a ≡ false) }
    {
        let (at, count) = near_addresses(image);
        Ok(Words {
            first: at / 128,
            near: vec![in alloc; 0; count / 128 + 2]?,
            others: IndexMap::new(alloc),
        })
    }

    /// Whether an address is in the set.
    pub fn contains(&self, at: u32) -> bool
        ensures { result ≡ contains self.now at }
    {
        let row = row_of(at);
        if let Some(place) = near_place(self.first, self.near.len(), row) {
            return is_set(self.near[place], at);
        }
        match self.others.get(&row) {
            Some(bits) => is_set(*bits, at),
            None => false,
        }
    }

    /// Puts an address into the set. Whether it wasn't there.
    pub fn insert(&mut self, at: u32) -> Result<bool, AllocError>
        ensures new { IfOk result (λ is_new. is_new ≡ not (contains self.old at)) }
        ensures has { OnOk result ((a : ℕ) → IsTrue (contains self.new a)
            ↔ (IsTrue (contains self.old a) ⊎ (a ≡ at))) }
    {
        let row = row_of(at);
        if let Some(place) = near_place(self.first, self.near.len(), row) {
            return Ok(set_bit(&mut self.near[place], at));
        }
        if let Some(bits) = self.others.get_mut(&row) {
            return Ok(set_bit(bits, at));
        }
        self.others.insert(row, 1 << (at / 4 % 32))?;
        Ok(true)
    }
}
