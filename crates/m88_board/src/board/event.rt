//! The event of a letter.

ghost use Rattle.std.specs.Prelude.{◌≡◌, ◌<◌, OnErr};
ghost use Rattle.m88_event.specs.declared.letter.Letter.{Letter as LetterValue};
ghost use Rattle.m88_board.specs.Kept.{most_events};
ghost use Rattle.m88_board.specs.Moves.{MakesEvent};
ghost use Rattle.m88_board.specs.Inside.Briefly.{happened_of};
ghost use Rattle.m88_board.specs.Inside.Events.{BringsOrStays, EvictsAll, ShownOrStays, TellsEvent, TellsInstruction};
ghost use Rattle.m88_board.specs.Told.{MakesWordAccesses};

use super::Board;
use crate::brief::Brief;
use crate::told::Told;
use crate::watch::{Unwatched, Watch};
use m88_base::NoMemory;
use m88_event::{Happened, Letter};

impl Board {
    /// Makes the event of a letter: of `i` the next instruction is issued, or a bubble passed, or nothing where
    /// it must wait; of `r` the oldest transaction is answered, or meets its fault; of `e` every page is made absent,
    /// which takes no memory and changes nothing else. Memory is taken before anything changes: where it runs out, the
    /// board is as before, and no event is counted.
    // Inlined, so that no whole value of what happened is made where the caller asks little of it.
    #[inline(always)]
    pub fn event(&mut self, letter: Letter) -> Result<Happened, NoMemory>
        requires { self.old.events < most_events }
        ensures { MakesEvent letter self.old result self.new }
    {
        let brief = self.step(letter, &mut Unwatched::new(), &mut Told::nothing())?;
        Ok(self.happened(brief))
    }

    /// Makes the event of a letter, answers in brief, and tells of `i`, where somebody asks, what the instruction is
    /// that goes on; then the watch is shown the board.
    // Inlined, as all that makes an event but the issue and an answer over what is pending: so a letter over nothing
    // enters no function.
    #[inline(always)]
    pub(crate) fn step<W: Watch>(
        &mut self,
        letter: Letter,
        watch: &mut W,
        told: &mut Told,
    ) -> Result<Brief, NoMemory>
        requires { self.old.events < most_events }
        ensures happens { ShownOrStays letter self.old (W.seen watch.old) (W.seen watch.new)
            result self.new }
        ensures evicts { letter ≡ LetterValue.Evict → EvictsAll self.old result self.new }
        ensures tells { TellsEvent letter self.old told.old result self.new told.new }
        ensures unseen { OnErr result (watch.new ≡ watch.old) }
    {
        let brief = self.take(letter, told)?;
        self.count();
        watch.after(self);
        Ok(brief)
    }

    /// What a letter makes the board do; the event isn't counted yet.
    // Inlined into the loop over the letters.
    #[inline(always)]
    fn take(&mut self, letter: Letter, told: &mut Told) -> Result<Brief, NoMemory>
        ensures brings { BringsOrStays letter self.old result self.new }
        ensures evicts { letter ≡ LetterValue.Evict → EvictsAll self.old result self.new }
        ensures tells { letter ≡ LetterValue.Issue
            → TellsInstruction self.old told.old result self.new told.new }
        ensures made { MakesWordAccesses told.old.plan → MakesWordAccesses told.new.plan }
    {
        match letter {
            Letter::Issue => self.issue(told),
            Letter::Answer => self.answer(),
            Letter::Evict => Ok(self.evict()),
        }
    }

    /// What the last event did, of which this was told in brief: of a data fault with its record, the last of the
    /// board's, and of the program's end how it ended.
    pub(crate) fn happened(&self, brief: Brief) -> Happened
        ensures { result ≡ happened_of brief self.now }
    {
        match brief {
            Brief::Issued => Happened::Issued,
            Brief::Bubble => Happened::Bubble,
            Brief::Stalled(why) => Happened::Stalled(why),
            Brief::Answered => Happened::Answered,
            Brief::Faulted => match self.book.records.as_slice().last() {
                Some(fault) => Happened::Faulted(*fault),
                None => Happened::Idle,
            },
            Brief::Evicted => Happened::Evicted,
            Brief::Idle => Happened::Idle,
            Brief::Served(byte) => Happened::Served(byte),
            Brief::Ended => match self.book.end {
                Some(end) => Happened::Ended(end),
                None => Happened::Idle,
            },
        }
    }
}
