//! Runs in a row, in blocks, so that few others move when one more is put between them.
ghost use Rattle.std.specs.Prelude.{◌≡◌, ◌+◌, ◌^◌, ◌<◌, ◌≤◌, [], true, false, length, insert, remove, slice_index_or, slice_set, take, IfNone, IfOk, IfSome, OnOk, OnErr};
ghost use Rattle.std.specs.List.Sorted.{IsNonDecreasingBy};
ghost use Rattle.m88_base.specs.Found.{filled};
ghost use Rattle.m88_base.specs.Placed.{AreApart, byte_among};
ghost use Rattle.m88_base.specs.Inside.Placing.{IsCut, IsCutBy, IsLastBy};
ghost use Rattle.m88_base.specs.Inside.Blocks.{IsCounted, IsCountedUpTo, IsPlaceInBlocks, IsRunInBlocks, all_runs, end_of, first_start, run_at, with_ahead, with_behind};

use crate::block::Block;
use crate::segment::Segment;
use std::alloc::{AllocError, Global};
use std::marker::Model;

/// The most runs of a block, where there is memory for one more block.
const MOST_RUNS: usize = 256;

/// Runs in a row, seen as the lists of runs of its blocks. No block is empty; of each is kept how many runs stand ahead
/// of it, so that an index and an address are both found by halving, but that the last block is tried first.
#[derive(Drop, Debug)]
pub struct Blocks {
    blocks: Vec<Block>,
    starts: Vec<usize>,
    len: usize,
}

impl Model for Blocks {
    ghost use Rattle.std.specs.Prelude.{◌≡◌, List, length};
    ghost use Rattle.m88_base.specs.Placed.{Placed};
    ghost use Rattle.m88_base.specs.Inside.Blocks.{AreNonempty, IsCounted, all_runs};

    ghost Value = { List (List Placed) };

    ghost view = { λ runs. runs.blocks.items };

    ghost invariant = { λ runs. (runs.len ≡ length (all_runs runs.blocks.items))
        × AreNonempty runs.blocks.items × IsCounted runs.starts.items runs.blocks.items };
}

impl Blocks {
    /// No runs.
    pub fn new(alloc: Global) -> Blocks
        ensures { result ≡ [] }
    {
        Blocks {
            blocks: Vec::new(alloc),
            starts: Vec::new(alloc),
            len: 0,
        }
    }

    /// A copy of the runs, each with bytes of its own.
    pub fn copy(&self, alloc: Global) -> Result<Blocks, AllocError>
        ensures { IfOk result (λ copy. copy ≡ self.now) }
    {
        let blocks = copied(alloc, &self.blocks)?;
        let starts = Vec::from_slice(alloc, &self.starts)?;
        Ok(Blocks {
            blocks,
            starts,
            len: self.len,
        })
    }

    /// The number of runs.
    pub fn len(&self) -> usize
        ensures { result ≡ length (all_runs self.now) }
    {
        self.len
    }

    /// The run at an index.
    pub fn get(&self, index: usize) -> &Segment
        requires { index < length (all_runs self.now) }
        ensures { result.now ≡ slice_index_or (all_runs self.now) index result.now }
    {
        let (at, inside) = self.place_of(index);
        let block = &self.blocks[at];
        block.get(inside)
    }

    /// The number of runs that begin at or below an address.
    pub fn locate(&self, at: u32) -> usize
        requires { AreApart 0 (all_runs self.now) }
        ensures { IsCut (all_runs self.now) result at }
    {
        if self.len == 0 {
            return 0;
        }
        let passed = begun_by(&self.blocks, at);
        if passed == 0 {
            return 0;
        }
        let block = &self.blocks[passed - 1];
        self.starts[passed - 1] + block.locate(at)
    }

    /// The last run that begins at or below an address.
    pub fn below(&self, at: u32) -> Option<&Segment>
        requires { AreApart 0 (all_runs self.now) }
        ensures some { IfSome result (λ run. IsLastBy (all_runs self.now) at run.now) }
        ensures none { IfNone result (AreApart (at + 1) (all_runs self.now)) }
    {
        let passed = begun_by(&self.blocks, at);
        if passed == 0 {
            return None;
        }
        let block = &self.blocks[passed - 1];
        Some(block.below(at))
    }

    /// Writes the bytes of the runs over those that stand in a room for the addresses from `at` on: it goes from the
    /// last block that begins at or below `at`, or the first where none does, to the first that begins behind the room.
    pub fn fill(&self, at: u32, room: &mut [u8])
        requires { AreApart 0 (all_runs self.now) }
        ensures { room.new ≡ filled (byte_among (all_runs self.now)) at room.old }
    {
        let end = u64::from(at) + room.len() as u64;
        for index in begun_by(&self.blocks, at).saturating_sub(1)..self.blocks.len() {
            let block = &self.blocks[index];
            if u64::from(block.start()) >= end {
                return;
            }
            block.fill(at, room);
        }
    }

    /// Puts a run in ahead of the one at an index.
    pub fn insert(&mut self, alloc: Global, index: usize, run: Segment) -> Result<(), AllocError>
        requires { index ≤ length (all_runs self.old) }
        ensures ok { OnOk result (all_runs self.new ≡ insert (all_runs self.old) index run) }
        ensures err { OnErr result (all_runs self.new ≡ all_runs self.old) }
    {
        let len = self.len.checked_add(1).ok_or(AllocError)?;
        if self.is_full_at(index) {
            return self.begin_block(alloc, run, len);
        }
        let (at, inside) = self.place_before(index);
        let block = &mut self.blocks[at];
        block.insert(inside, run)?;
        let long = block.len() > MOST_RUNS;
        count(&mut self.starts, &self.blocks, at + 1);
        self.len = len;
        if long {
            let _ = self.split(at);
        }
        Ok(())
    }

    /// Puts copies of bytes behind those of the run at an index: the run has them, or all is as before.
    pub fn append_at(&mut self, alloc: Global, index: usize, bytes: &[u8]) -> Result<(), AllocError>
        requires within { index < length (all_runs self.old) }
        requires room { end_of (run_at (all_runs self.old) index) + length bytes.now ≤ 2 ^ 32 }
        ensures ok { OnOk result (all_runs self.new ≡ slice_set (all_runs self.old) index
            (with_behind (run_at (all_runs self.old) index) bytes.now)) }
        ensures err { OnErr result (all_runs self.new ≡ all_runs self.old) }
    {
        let (at, inside) = self.place_of(index);
        let block = &mut self.blocks[at];
        block.append_at(alloc, inside, bytes)?;
        Ok(())
    }

    /// Puts copies of bytes ahead of those of the run at an index: the run has them, or all is as before.
    pub fn prepend_at(
        &mut self,
        alloc: Global,
        index: usize,
        bytes: &[u8],
    ) -> Result<(), AllocError>
        requires within { index < length (all_runs self.old) }
        requires room { length bytes.now ≤ (run_at (all_runs self.old) index).at }
        ensures ok { OnOk result (all_runs self.new ≡ slice_set (all_runs self.old) index
            (with_ahead (run_at (all_runs self.old) index) bytes.now)) }
        ensures err { OnErr result (all_runs self.new ≡ all_runs self.old) }
    {
        let (at, inside) = self.place_of(index);
        let block = &mut self.blocks[at];
        block.prepend_at(alloc, inside, bytes)?;
        Ok(())
    }

    /// Takes the run at an index out.
    pub fn remove(&mut self, index: usize)
        requires { index < length (all_runs self.old) }
        ensures { all_runs self.new ≡ remove (all_runs self.old) index }
    {
        let (at, inside) = self.place_of(index);
        let block = &mut self.blocks[at];
        block.remove(inside);
        if block.len() == 0 {
            self.blocks.remove(at);
            self.starts.pop();
        }
        count(&mut self.starts, &self.blocks, at);
        self.len -= 1;
    }

    /// The block that has the run at an index, and where the run stands in it.
    fn place_of(&self, index: usize) -> (usize, usize)
        requires { index < length (all_runs self.now) }
        ensures { IsRunInBlocks self.now result.0 result.1 index }
    {
        let passed = counted_by(&self.starts, index);
        if passed == 0 {
            unreachable!();
        }
        (passed - 1, index - self.starts[passed - 1])
    }

    /// The block into which a run is put for an index, and where.
    fn place_before(&self, index: usize) -> (usize, usize)
        requires some { 0 < length self.now }
        requires index { index ≤ length (all_runs self.now) }
        ensures { IsPlaceInBlocks self.now result.0 result.1 index }
    {
        if index == 0 {
            return (0, 0);
        }
        let (at, inside) = self.place_of(index - 1);
        (at, inside + 1)
    }

    /// Whether an index stands behind all runs, with no block there that has room for one more.
    fn is_full_at(&self, index: usize) -> bool
        requires { index ≤ length (all_runs self.now) }
        ensures behind { result ≡ true → index ≡ length (all_runs self.now) }
        ensures some { result ≡ false → 0 < length self.now }
    {
        match self.blocks.last() {
            Some(block) => block.len() >= MOST_RUNS && index == self.len,
            None => true,
        }
    }

    /// Puts a run in behind all others, in a block of its own. With it there are `len` runs.
    fn begin_block(&mut self, alloc: Global, run: Segment, len: usize) -> Result<(), AllocError>
        requires { len ≡ length (all_runs self.old) + 1 }
        ensures ok { OnOk result
            (all_runs self.new ≡ insert (all_runs self.old) (length (all_runs self.old)) run) }
        ensures err { OnErr result (all_runs self.new ≡ all_runs self.old) }
    {
        let block = Block::of(alloc, run)?;
        self.starts.reserve(1)?;
        self.blocks.push(block)?;
        if self.starts.push(self.len).is_err() {
            unreachable!();
        }
        self.len = len;
        Ok(())
    }

    /// Cuts a block in two. Where there is no memory for it the block stays as long as it is.
    fn split(&mut self, at: usize) -> Result<(), AllocError>
        requires at { at < length self.old }
        requires long { 1 < length (slice_index_or self.old at []) }
        ensures { all_runs self.new ≡ all_runs self.old }
    {
        self.starts.reserve(1)?;
        self.blocks.reserve(1)?;
        let block = &mut self.blocks[at];
        let upper = block.split_off()?;
        if self.blocks.insert(at + 1, upper).is_err() {
            unreachable!();
        }
        if self.starts.push(0).is_err() {
            unreachable!();
        }
        count(&mut self.starts, &self.blocks, at + 1);
        Ok(())
    }
}

fn copied(alloc: Global, blocks: &[Block]) -> Result<Vec<Block>, AllocError>
    ensures { IfOk result (λ copy. copy.items ≡ blocks.now) }
{
    let mut copy = Vec::with_capacity(alloc, blocks.len())?;
    for block in blocks {
        copy.push(block.copy(alloc)?)?;
    }
    Ok(copy)
}

/// The number of blocks ahead of which stand no more runs than an index. The last is tried first.
fn counted_by(starts: &[usize], index: usize) -> usize
    requires { IsNonDecreasingBy (λ start. start) starts.now }
    ensures { IsCutBy (λ start. start) starts.now index result }
{
    match starts.last() {
        Some(start) if *start <= index => starts.len(),
        _ => starts.partition_point(|start| *start <= index),
    }
}

/// The number of blocks that begin at or below an address. The last is tried first.
fn begun_by(blocks: &[Block], at: u32) -> usize
    requires { IsNonDecreasingBy first_start blocks.now }
    ensures { IsCutBy first_start blocks.now at result }
{
    match blocks.last() {
        Some(block) if block.begins_by(at) => blocks.len(),
        _ => blocks.partition_point(|block| block.begins_by(at)),
    }
}

/// Counts the runs ahead of each block anew, where those ahead of the first `from` are counted.
fn count(starts: &mut [usize], blocks: &[Block], from: usize)
    requires { IsCountedUpTo from starts.old blocks.now }
    ensures { IsCounted starts.new blocks.now }
{
    let mut total = ahead(starts, blocks, from);
    for at in from..blocks.len() {
        starts[at] = total;
        total += blocks[at].len();
    }
}

/// The number of runs ahead of a block, or in all of them, where those ahead of the blocks before it are counted.
fn ahead(starts: &[usize], blocks: &[Block], from: usize) -> usize
    requires { IsCountedUpTo from starts.now blocks.now }
    ensures { result ≡ length (all_runs (take from blocks.now)) }
{
    if from == 0 {
        return 0;
    }
    starts[from - 1] + blocks[from - 1].len()
}
