//! Runs in ascending order, with an address without a byte between each two.
ghost use Rattle.std.specs.Prelude.{◌≡◌, ◌+◌, ◌<◌, ◌≤◌, ◌↔◌, ℕ, [], ◌++◌, take, drop, length, slice_get, IfOk, IfNone, IfSome, IsTrue, None, Some};
ghost use Rattle.m88_base.specs.Found.{IsFree, IsLeastTaken, IsPart, filled};
ghost use Rattle.m88_base.specs.Placed.{AreApart, byte_among};
ghost use Rattle.m88_base.specs.Inside.Placing.{AnswersPlacing, BeginsAbove, BeginsAt, EndsAt, EndsBelow, EndsBy, IsCut, IsSought, StandsBetween, next_start};
ghost use Rattle.m88_base.specs.Inside.Blocks.{all_runs};

use crate::blocks::Blocks;
use crate::segment::{Segment, joined};
use std::alloc::{AllocError, Global};
use std::marker::Model;

/// Runs in ascending order, with an address without a byte between each two.
#[derive(Drop, Debug)]
pub struct Segments {
    runs: Blocks,
}

impl Model for Segments {
    ghost use Rattle.std.specs.Prelude.{List};
    ghost use Rattle.m88_base.specs.Placed.{AreApart, Placed};
    ghost use Rattle.m88_base.specs.Inside.Blocks.{all_runs};

    ghost Value = { List Placed };

    ghost view = { λ segments. all_runs segments.runs };

    ghost invariant = { λ segments. AreApart 0 (all_runs segments.runs) };
}

impl Segments {
    /// No runs.
    pub fn new(alloc: Global) -> Segments
        ensures { result ≡ [] }
    {
        Segments {
            runs: Blocks::new(alloc),
        }
    }

    /// A copy of the runs, each with bytes of its own.
    pub fn copy(&self, alloc: Global) -> Result<Segments, AllocError>
        ensures { IfOk result (λ copy. copy ≡ self.now) }
    {
        let runs = self.runs.copy(alloc)?;
        Ok(Segments { runs })
    }

    /// The number of runs.
    pub fn len(&self) -> usize
        ensures value { result ≡ length self.now }
        ensures apart { AreApart 0 self.now }
    {
        self.runs.len()
    }

    /// The run at an index.
    pub fn get(&self, index: usize) -> &Segment
        requires { index < length self.now }
        ensures value { slice_get self.now index ≡ Some result.now }
        ensures part { IsPart (byte_among self.now) result.now.at result.now.bytes }
    {
        self.runs.get(index)
    }

    /// The byte at an address, where a run has one.
    pub fn find(&self, at: u32) -> Option<u8>
        ensures { result ≡ byte_among self.now at }
    {
        match self.runs.below(at) {
            Some(run) => run.byte(at),
            None => None,
        }
    }

    /// The bytes from an address on, up to the first address without one.
    pub fn rest(&self, at: u32) -> &[u8]
        ensures there { (k : ℕ) → k < length result.now
            → byte_among self.now (at + k) ≡ slice_get result.now k }
        ensures end { byte_among self.now (at + length result.now) ≡ None }
    {
        match self.runs.below(at) {
            Some(run) => run.bytes_from(at),
            None => &[],
        }
    }

    /// Writes the bytes over those that stand in a room for the addresses from `at` on.
    pub fn fill(&self, at: u32, room: &mut [u8])
        ensures { room.new ≡ filled (byte_among self.now) at room.old }
    {
        self.runs.fill(at, room);
    }

    /// The number of runs that begin at or below an address.
    pub fn locate(&self, at: u32) -> usize
        ensures { IsCut self.now result at }
    {
        self.runs.locate(at)
    }

    /// The first address at which one more run may begin behind the runs below `index`.
    pub fn next_start(&self, index: usize) -> u64
        requires { index ≤ length self.now }
        ensures { result ≡ next_start 0 (take index self.now) }
    {
        if index == 0 {
            return 0;
        }
        self.runs.get(index - 1).end() + 1
    }

    /// The least of `count` addresses from `at` on that have a byte, where `index` runs begin at or
    /// below `at` and one more may begin behind them from `next` on.
    pub fn first_taken(&self, index: usize, next: u64, at: u32, count: usize) -> Option<u32>
        requires { IsSought self.now index next at count }
        ensures taken { IfSome result (IsLeastTaken (byte_among self.now) at count) }
        ensures free { IfNone result (IsFree (byte_among self.now) at count) }
        ensures gap { IfNone result (StandsBetween EndsBy AreApart self.now index at count) }
    {
        let runs = &self.runs;
        if next > u64::from(at) + 1 {
            return Some(at);
        }
        if index < runs.len() {
            let first = runs.get(index).at();
            if u64::from(first) < u64::from(at) + count as u64 {
                return Some(first);
            }
        }
        None
    }

    /// Places bytes between the runs below `index`, behind which one more may begin from `next` on, and the others, at
    /// addresses that have none yet.
    pub fn place(
        &mut self,
        alloc: Global,
        index: usize,
        next: u64,
        at: u32,
        bytes: &[u8],
    ) -> Result<(), AllocError>
        requires next { next ≡ next_start 0 (take index self.old) }
        requires gap { StandsBetween EndsBy AreApart self.old index at (length bytes.now) }
        ensures { AnswersPlacing result self.old self.new at bytes.now }
    {
        let behind = next == u64::from(at) + 1;
        let ahead = begins_at(&self.runs, index, u64::from(at) + bytes.len() as u64);
        if behind {
            if ahead {
                return self.bridge(alloc, index, at, bytes);
            }
            return self.place_behind(alloc, index, at, bytes);
        }
        if ahead {
            return self.place_ahead(alloc, index, at, bytes);
        }
        self.place_alone(alloc, index, at, bytes)
    }

    /// Places bytes that touch no run.
    fn place_alone(
        &mut self,
        alloc: Global,
        index: usize,
        at: u32,
        bytes: &[u8],
    ) -> Result<(), AllocError>
        requires { StandsBetween EndsBelow BeginsAbove self.old index at (length bytes.now) }
        ensures { AnswersPlacing result self.old self.new at bytes.now }
    {
        let run = Segment::new(alloc, at, bytes)?;
        self.runs.insert(alloc, index, run)?;
        Ok(())
    }

    /// Places bytes just behind the run below `index`.
    fn place_behind(
        &mut self,
        alloc: Global,
        index: usize,
        at: u32,
        bytes: &[u8],
    ) -> Result<(), AllocError>
        requires { StandsBetween EndsAt BeginsAbove self.old index at (length bytes.now) }
        ensures { AnswersPlacing result self.old self.new at bytes.now }
    {
        self.runs.append_at(alloc, index - 1, bytes)?;
        Ok(())
    }

    /// Places bytes just ahead of the run at `index`.
    fn place_ahead(
        &mut self,
        alloc: Global,
        index: usize,
        at: u32,
        bytes: &[u8],
    ) -> Result<(), AllocError>
        requires { StandsBetween EndsBelow BeginsAt self.old index at (length bytes.now) }
        ensures { AnswersPlacing result self.old self.new at bytes.now }
    {
        self.runs.prepend_at(alloc, index, bytes)?;
        Ok(())
    }

    /// Places bytes that fill the gap between the run below `index` and the one at it. The shorter run moves, so that
    /// no byte moves often, in whatever order the gaps are filled.
    fn bridge(
        &mut self,
        alloc: Global,
        index: usize,
        at: u32,
        bytes: &[u8],
    ) -> Result<(), AllocError>
        requires { StandsBetween EndsAt BeginsAt self.old index at (length bytes.now) }
        ensures { AnswersPlacing result self.old self.new at bytes.now }
    {
        let below = self.runs.get(index - 1).bytes();
        let above = self.runs.get(index).bytes();
        if below.len() < above.len() {
            let front = joined(alloc, below, bytes)?;
            self.runs.prepend_at(alloc, index, &front)?;
            self.runs.remove(index - 1);
            return Ok(());
        }
        let back = joined(alloc, bytes, above)?;
        self.runs.append_at(alloc, index - 1, &back)?;
        self.runs.remove(index);
        Ok(())
    }
}

/// Whether the run at `index` begins at an address.
fn begins_at(runs: &Blocks, index: usize, at: u64) -> bool
    ensures { IsTrue result ↔ BeginsAt at (drop index (all_runs runs.now)) }
{
    if index < runs.len() {
        let run = runs.get(index);
        return u64::from(run.at()) == at;
    }
    false
}
