//! A few runs in a row.
ghost use Rattle.std.specs.Prelude.{◌≡◌, ◌+◌, ◌/◌, ◌^◌, ◌<◌, ◌≤◌, [], ◌∷◌, ◌++◌, leb, length, insert, remove, slice_index_or, slice_set, IfOk, OnOk, OnErr};
ghost use Rattle.std.specs.List.Sorted.{IsNonDecreasingBy};
ghost use Rattle.m88_base.specs.Found.{filled};
ghost use Rattle.m88_base.specs.Inside.Blocks.{end_of, first_start, run_at, with_ahead, with_behind};
ghost use Rattle.m88_base.specs.Inside.Placing.{IsCut, IsCutBy, IsLastBy};
ghost use Rattle.m88_base.specs.Placed.{AreApart, byte_among};

use crate::segment::Segment;
use std::alloc::{AllocError, Global};
use std::marker::Model;

/// Runs in a row, few enough that one more is soon put between them.
#[derive(Drop, Debug)]
pub struct Block {
    runs: Vec<Segment>,
}

impl Model for Block {
    ghost use Rattle.std.specs.Prelude.{List};
    ghost use Rattle.m88_base.specs.Placed.{Placed};

    ghost Value = { List Placed };

    ghost view = { λ block. block.runs.items };
}

impl Block {
    /// A block of one run.
    pub fn of(alloc: Global, run: Segment) -> Result<Block, AllocError>
        ensures { IfOk result (λ block. block ≡ run ∷ []) }
    {
        let mut runs = Vec::new(alloc);
        runs.push(run)?;
        Ok(Block { runs })
    }

    /// A copy of the runs, each with bytes of its own.
    pub fn copy(&self, alloc: Global) -> Result<Block, AllocError>
        ensures { IfOk result (λ copy. copy ≡ self.now) }
    {
        let runs = copied(alloc, &self.runs)?;
        Ok(Block { runs })
    }

    /// The number of runs.
    pub fn len(&self) -> usize
        ensures { result ≡ length self.now }
    {
        self.runs.len()
    }

    /// The run at an index.
    pub fn get(&self, index: usize) -> &Segment
        requires { index < length self.now }
        ensures { result.now ≡ slice_index_or self.now index result.now }
    {
        &self.runs[index]
    }

    /// Whether the first run begins at or below an address.
    pub fn begins_by(&self, at: u32) -> bool
        ensures { result ≡ leb (first_start self.now) at }
    {
        self.start() <= at
    }

    /// The address at which the first run begins, 0 where there is none.
    pub fn start(&self) -> u32
        ensures { result ≡ first_start self.now }
    {
        match self.runs.as_slice() {
            [first, ..] => first.at(),
            _ => 0,
        }
    }

    /// The number of runs that begin at or below an address.
    pub fn locate(&self, at: u32) -> usize
        requires { AreApart 0 self.now }
        ensures { IsCut self.now result at }
    {
        locate(&self.runs, at)
    }

    /// The last run that begins at or below an address, where the first does.
    pub fn below(&self, at: u32) -> &Segment
        requires apart { AreApart 0 self.now }
        requires some { 0 < length self.now }
        requires begins { first_start self.now ≤ at }
        ensures { IsLastBy self.now at result.now }
    {
        let begun = locate(&self.runs, at);
        &self.runs[begun - 1]
    }

    /// Writes the bytes over those that stand in a room for the addresses from `at` on.
    pub fn fill(&self, at: u32, room: &mut [u8])
        requires { AreApart 0 self.now }
        ensures { room.new ≡ filled (byte_among self.now) at room.old }
    {
        fill(&self.runs, at, room);
    }

    /// Puts a run in ahead of the one at an index.
    pub fn insert(&mut self, index: usize, run: Segment) -> Result<(), AllocError>
        requires { index ≤ length self.old }
        ensures ok { OnOk result (self.new ≡ insert self.old index run) }
        ensures err { OnErr result (self.new ≡ self.old) }
    {
        self.runs.insert(index, run)?;
        Ok(())
    }

    /// Puts copies of bytes behind those of the run at an index: the run has them, or all is as before.
    pub fn append_at(&mut self, alloc: Global, index: usize, bytes: &[u8]) -> Result<(), AllocError>
        requires within { index < length self.old }
        requires room { end_of (run_at self.old index) + length bytes.now ≤ 2 ^ 32 }
        ensures ok { OnOk result
            (self.new ≡ slice_set self.old index (with_behind (run_at self.old index) bytes.now)) }
        ensures err { OnErr result (self.new ≡ self.old) }
    {
        self.runs[index].append(alloc, bytes)
    }

    /// Puts copies of bytes ahead of those of the run at an index: the run has them, or all is as before.
    pub fn prepend_at(
        &mut self,
        alloc: Global,
        index: usize,
        bytes: &[u8],
    ) -> Result<(), AllocError>
        requires within { index < length self.old }
        requires room { length bytes.now ≤ (run_at self.old index).at }
        ensures ok { OnOk result
            (self.new ≡ slice_set self.old index (with_ahead (run_at self.old index) bytes.now)) }
        ensures err { OnErr result (self.new ≡ self.old) }
    {
        self.runs[index].prepend(alloc, bytes)
    }

    /// Takes the run at an index out.
    pub fn remove(&mut self, index: usize)
        requires { index < length self.old }
        ensures { self.new ≡ remove self.old index }
    {
        self.runs.remove(index);
    }

    /// Takes the upper half of the runs out, as a block of its own.
    pub fn split_off(&mut self) -> Result<Block, AllocError>
        ensures ok { IfOk result (λ upper. self.new ++ upper ≡ self.old) }
        ensures len { OnOk result (length self.new ≡ length self.old / 2) }
        ensures err { OnErr result (self.new ≡ self.old) }
    {
        let runs = self.runs.split_off(self.runs.len() / 2)?;
        Ok(Block { runs })
    }
}

fn copied(alloc: Global, runs: &[Segment]) -> Result<Vec<Segment>, AllocError>
    ensures { IfOk result (λ copy. copy.items ≡ runs.now) }
{
    let mut copy = Vec::with_capacity(alloc, runs.len())?;
    for run in runs {
        copy.push(run.copy(alloc)?)?;
    }
    Ok(copy)
}

fn locate(runs: &[Segment], at: u32) -> usize
    requires { AreApart 0 runs.now }
    ensures { IsCut runs.now result at }
{
    begun_by(runs, at)
}

/// Writes the bytes of the runs over those that stand in a room for the addresses from `at` on: it goes from the last
/// run that begins at or below `at`, or the first where none does, to the first that begins behind the room.
fn fill(runs: &[Segment], at: u32, room: &mut [u8])
    requires { AreApart 0 runs.now }
    ensures { room.new ≡ filled (byte_among runs.now) at room.old }
{
    let end = u64::from(at) + room.len() as u64;
    for index in locate(runs, at).saturating_sub(1)..runs.len() {
        let run = &runs[index];
        if u64::from(run.at()) >= end {
            return;
        }
        run.fill(at, room);
    }
}

/// The number of runs that begin at or below an address, of runs in ascending order. The last is tried first.
fn begun_by(runs: &[Segment], at: u32) -> usize
    requires { IsNonDecreasingBy (λ run. run.at) runs.now }
    ensures { IsCutBy (λ run. run.at) runs.now at result }
{
    match runs.last() {
        Some(run) if run.at() <= at => runs.len(),
        _ => runs.partition_point(|run| run.at() <= at),
    }
}
