//! The stages of the data unit.
ghost use Rattle.std.specs.Prelude.{◌≡◌, ◌+◌, ◌<◌, ◌↔◌, ◌++◌, [], ◌∷◌, drop, length, slice_get, IfSome, IsErr, OnErr, OnOk};
ghost use Rattle.m88_base.specs.RegisterSet.{register_bits};
ghost use Rattle.m88_isa.specs.Bus.{listed, waits_for};
ghost use Rattle.m88_isa.specs.Held.{most_pending};
ghost use Rattle.m88_isa.specs.Memory.{IsWordAccess};
ghost use Rattle.m88_isa.specs.Triples.{accesses_in, triple_or_none, triples_of};
ghost use Rattle.m88_dunit.specs.Pending.{CanIssue};
ghost use Rattle.m88_dunit.specs.Inside.Stages.{ArePending};

use crate::full::Full;
use crate::stage::Stage;
use crate::words::loaded_set;
use arrayvec::ArrayVec;
use m88_base::{NO_TRIPLE, Triple};
use m88_isa::{Access, Accesses, access_in, triple_of};
use std::marker::Model;

/// The most transactions that may be pending.
pub const MOST_PENDING: usize = 3;

/// The transactions that are pending, at most three, the oldest first, each by its words.
#[derive(Drop, Debug)]
pub struct DataUnit {
    stages: ArrayVec<Stage, MOST_PENDING>,
}

impl Model for DataUnit {
    ghost use Rattle.std.specs.Prelude.{List};
    ghost use Rattle.m88_isa.specs.declared.planned.Access.{Access};
    ghost use Rattle.m88_dunit.specs.Inside.Stages.{AreStages, staged};

    ghost Value = { List Access };

    ghost view = { λ unit. staged unit.stages.items };

    ghost invariant = { λ unit. AreStages unit.stages.items };
}

impl DataUnit {
    /// A data unit with nothing pending.
    pub fn new() -> DataUnit
        ensures { result ≡ [] }
    {
        DataUnit {
            stages: ArrayVec::new(),
        }
    }

    /// How many transactions more may be pending.
    pub fn room(&self) -> u8
        ensures { result + length self.now ≡ most_pending }
    {
        (MOST_PENDING - self.stages.len()) as u8
    }

    /// The oldest transaction, or None where nothing is pending.
    pub fn oldest(&self) -> Option<Access>
        ensures value { result ≡ slice_get self.now 0 }
        ensures made { IfSome result IsWordAccess }
    {
        self.stage(0)
    }

    /// The registers other than r0 that the pending transactions load, a bit for each.
    pub fn pending_regs(&self) -> u32
        ensures { result ≡ register_bits (waits_for self.now) }
    {
        let first = loaded_set(self.stage(0));
        let second = loaded_set(self.stage(1));
        let third = loaded_set(self.stage(2));
        first | (second | third)
    }

    /// Appends accesses in order, or answers `Full` and changes nothing where more than three would be pending.
    pub fn issue(&mut self, accesses: &Accesses) -> Result<(), Full>
        requires { CanIssue accesses.now }
        ensures full { IsErr result ↔ (most_pending < length self.old + accesses.now.count) }
        ensures ok { OnOk result (self.new ≡ self.old ++ listed accesses.now) }
        ensures err { OnErr result (self.new ≡ self.old) }
    {
        if self.stages.len() + usize::from(accesses.count) > MOST_PENDING {
            return Err(Full);
        }
        match accesses.count {
            0 => Ok(()),
            1 => {
                self.put(&accesses.first);
                Ok(())
            }
            _ => {
                self.put(&accesses.first);
                self.put(&accesses.second);
                Ok(())
            }
        }
    }

    /// The oldest transaction goes.
    pub fn retire(&mut self)
        requires { 0 < length self.old }
        ensures { self.new ≡ drop 1 self.old }
    {
        self.stages.remove(0);
    }

    /// The words of the pending transactions, the oldest first, and 0 where there is none. They tell the
    /// transactions.
    pub fn triples(&self) -> [Triple; 3]
        ensures value { result ≡ triples_of self.now }
        ensures told { accesses_in result ≡ self.now }
    {
        [self.words(0), self.words(1), self.words(2)]
    }

    /// Hands the words of the pending transactions on, and nothing is pending any more.
    pub fn freeze(&mut self) -> [Triple; 3]
        ensures value { result ≡ triples_of self.old }
        ensures told { accesses_in result ≡ self.old }
        ensures empty { self.new ≡ [] }
    {
        let triples = self.triples();
        self.stages.clear();
        triples
    }

    /// A transaction by its place, 0 the oldest.
    fn stage(&self, place: usize) -> Option<Access>
        ensures value { result ≡ slice_get self.now place }
        ensures made { IfSome result IsWordAccess }
        ensures pending { ArePending self.now }
    {
        match self.stages.as_slice().get(place) {
            Some(stage) => Some(access_in(&stage.words)),
            None => None,
        }
    }

    /// The words of a transaction by its place, and 0 where there is none.
    fn words(&self, place: usize) -> Triple
        ensures value { result ≡ triple_or_none (slice_get self.now place) }
        ensures pending { ArePending self.now }
    {
        match self.stages.as_slice().get(place) {
            Some(stage) => stage.words,
            None => NO_TRIPLE,
        }
    }

    /// Appends one access.
    fn put(&mut self, access: &Access)
        requires made { IsWordAccess access.now }
        requires room { length self.old < most_pending }
        ensures { self.new ≡ self.old ++ access.now ∷ [] }
    {
        let words = triple_of(access);
        self.stages.push(Stage { words });
    }
}
