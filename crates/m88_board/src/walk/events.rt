//! The calls of a walk that make events.

ghost use Rattle.std.specs.Prelude.{ℕ, Bool, ◌≡◌, ◌+◌, false, IfOk, OnErr, OnOk};
ghost use Rattle.m88_event.specs.Letters.{letter_at};
ghost use Rattle.m88_event.specs.Local.{is_over_by};
ghost use Rattle.m88_event.specs.Run.{IsDrain, IsDraining, IsFirst, NotBefore, answered_after};
ghost use Rattle.m88_event.specs.Timeline.{Moment, Run};
ghost use Rattle.m88_event.specs.declared.letter.Letter.{Letter as LetterValue};
ghost use Rattle.m88_isa.specs.Machine.{Program};
ghost use Rattle.m88_board.specs.Board.{local_of};
ghost use Rattle.m88_board.specs.Calls.{MakesNext, StaysOnRun, TakesLetter};
ghost use Rattle.m88_board.specs.Inside.Events.{EvictsAll, ShownOrStays, TellsEvent};
ghost use Rattle.m88_board.specs.Moves.{IsAlong, IsAt};
ghost use Rattle.m88_board.specs.Told.{IsTold, MakesWordAccesses};
ghost use Rattle.m88_board.specs.Walks.{is_enough, moments_from, stops_after};

use super::Walk;
use crate::brief::Brief;
use crate::route::Route;
use crate::told::Told;
use crate::until::Until;
use crate::watch::Watch;
use m88_base::NoMemory;
use m88_event::Happened;

impl<'a> Walk<'a> {
    /// Makes the event of the next letter; then the watch is shown the board. Where memory runs out, the board is as
    /// before, and the letter isn't taken.
    // Inlined, so that no whole value of what happened is made where the caller asks little of it.
    #[inline(always)]
    pub fn next<W: Watch>(&mut self, watch: &mut W) -> Result<Happened, NoMemory>
        requires { is_over_by self.old.board.now.limit (local_of self.old.board.now) ≡ false }
        ensures goes { MakesNext self.old self.new (W.seen watch.old) (W.seen watch.new) result }
        ensures unseen { OnErr result (watch.new ≡ watch.old) }
    {
        let brief = self.next_brief(watch, &mut Told::nothing())?;
        Ok(self.board.happened(brief))
    }

    /// Makes the event of the next letter as `next` does, and tells of `i` what the instruction is that goes on.
    // Inlined, so that no whole value of what happened is made where the caller asks little of it.
    #[inline(always)]
    pub fn next_told<W: Watch>(
        &mut self,
        watch: &mut W,
        told: &mut Told,
    ) -> Result<Happened, NoMemory>
        requires { is_over_by self.old.board.now.limit (local_of self.old.board.now) ≡ false }
        ensures goes { MakesNext self.old self.new (W.seen watch.old) (W.seen watch.new) result }
        ensures told { letter_at self.old.schedule.now self.old.taken ≡ LetterValue.Issue
            → IfOk result (λ happened. (r : Run) (m : Moment)
            → IsAt r m self.old.board.now
            → IsTold r m happened told.new) }
        ensures made { MakesWordAccesses told.old.plan → MakesWordAccesses told.new.plan }
        ensures unseen { OnErr result (watch.new ≡ watch.old) }
    {
        told.asked = true;
        let brief = self.next_brief(watch, told)?;
        Ok(self.board.happened(brief))
    }

    /// Makes the event of the next letter as `next_told` does, but answers in brief, and tells where somebody asks.
    // Inlined into the loop over the letters.
    #[inline(always)]
    fn next_brief<W: Watch>(&mut self, watch: &mut W, told: &mut Told) -> Result<Brief, NoMemory>
        requires { is_over_by self.old.board.now.limit (local_of self.old.board.now) ≡ false }
        ensures happens { ShownOrStays (letter_at self.old.schedule.now self.old.taken)
            self.old.board.now (W.seen watch.old) (W.seen watch.new) result self.new.board.now }
        ensures tells { TellsEvent (letter_at self.old.schedule.now self.old.taken)
            self.old.board.now told.old result self.new.board.now told.new }
        ensures evicts { letter_at self.old.schedule.now self.old.taken ≡ LetterValue.Evict
            → EvictsAll self.old.board.now result self.new.board.now }
        ensures takes { TakesLetter self.old self.new result }
        ensures unseen { OnErr result (watch.new ≡ watch.old) }
    {
        let letter = self.letter();
        let brief = self.board.step(letter, watch, told)?;
        self.taken += 1;
        Ok(brief)
    }

    /// Makes events until the run is over, or the walk is to stop before. The watch is shown the board after each.
    /// Where memory runs out, the board stands after as many events as the watch was shown, and so many letters are
    /// taken.
    pub fn go_until<W: Watch>(&mut self, until: Until, watch: &mut W) -> Result<(), NoMemory>
        ensures ok { OnOk result ((r : Run) (m : Moment) → r.schedule ≡ self.old.schedule.now
            → IsAt r m self.old.board.now
            → (events : ℕ) × IsFirst (stops_after (is_enough until.entry) r self.old.taken m) events
            × IsAlong r (moments_from r self.old.taken m) events
            (W.seen watch.old) (W.seen watch.new) self.new.board.now
            × (self.new.taken ≡ self.old.taken + events)) }
        ensures stays { StaysOnRun self.old self.new }
        ensures err { OnErr result ((r : Run) (m : Moment) → r.schedule ≡ self.old.schedule.now
            → IsAt r m self.old.board.now
            → (events : ℕ) × NotBefore (stops_after (is_enough until.entry) r self.old.taken m) events
            × IsAlong r (moments_from r self.old.taken m) events
            (W.seen watch.old) (W.seen watch.new) self.new.board.now
            × (self.new.taken ≡ self.old.taken + events)) }
    {
        let before = self.board.events();
        let route = Route::Run {
            schedule: self.schedule,
            taken: self.taken,
            until,
        };
        let went = self.board.follow(route, watch);

        // Each event took a letter, also where memory ran out behind it.
        self.taken += (self.board.events() - before) as usize;
        went
    }

    /// Makes `r` events until nothing is pending, which take no letter of the run. The watch is shown the board after
    /// each. Where memory runs out, the board stands after whole events.
    pub fn drain<W: Watch>(&mut self, watch: &mut W) -> Result<(), NoMemory>
        ensures ok { OnOk result ((r : Run) (m : Moment)
            → IsAt r m self.old.board.now
            → (events : ℕ) × IsDrain r m events
            × IsAlong r (answered_after r m) events
            (W.seen watch.old) (W.seen watch.new) self.new.board.now) }
        ensures stays { StaysOnRun self.old self.new }
        ensures taken { self.new.taken ≡ self.old.taken }
        ensures err { OnErr result ((r : Run) (m : Moment)
            → IsAt r m self.old.board.now
            → (events : ℕ) × IsDraining r m events
            × IsAlong r (answered_after r m) events
            (W.seen watch.old) (W.seen watch.new) self.new.board.now) }
    {
        self.board.drain(watch)
    }
}
