//! Whole runs, draining, and the loop over the events of both.

ghost use Rattle.std.specs.Prelude.{ℕ, Bool, [], ◌↔◌, ◌≡◌, ◌<◌, ◌≤◌, ◌+◌, ◌-◌, ◌*◌, true, length, IfOk, OnErr, OnOk};
ghost use Rattle.m88_event.specs.Run.{IsDrain, IsDraining, IsFirst, IsOutcome, IsRunning, NotBefore, answered_after, moment_after, outcome_at, outcome_by};
ghost use Rattle.m88_event.specs.Timeline.{Moment, Run, is_over, opening_moment};
ghost use Rattle.m88_event.specs.declared.happened.End.{End as EndValue};
ghost use Rattle.m88_event.specs.declared.outcome.Outcome.{Outcome as OutcomeValue};
ghost use Rattle.m88_isa.specs.Bus.{in_words};
ghost use Rattle.m88_isa.specs.Held.{most_pending};
ghost use Rattle.m88_isa.specs.History.{bus_at, transaction_count};
ghost use Rattle.m88_isa.specs.Machine.{IsProgram, Program, state};
ghost use Rattle.m88_mem.specs.DataBus.{image_bus};
ghost use Rattle.m88_board.specs.Board.{local_of};
ghost use Rattle.m88_board.specs.Glances.{Saw, glances_along};
ghost use Rattle.m88_board.specs.Inside.Routes.{CanBeCounted, IsBoundedBy, stops_at_event, moments_by};
ghost use Rattle.m88_board.specs.Kept.{IsKept, most_events};
ghost use Rattle.m88_board.specs.Moves.{IsAlong, IsAt, IsSameRun};
ghost use Rattle.m88_board.specs.Shown.{IsSettled};
ghost use Rattle.m88_board.specs.Walks.{IsNoHeavier};
ghost use Rattle.m88_board.specs.declared.route.Route.{Route as RouteValue};

use super::Board;
use crate::route::Route;
use crate::told::Told;
use crate::until::Until;
use crate::walk::Walk;
use crate::watch::Watch;
use m88_base::NoMemory;
use m88_event::{Outcome, Schedule};

impl Board {
    /// Makes the events of the letters of a schedule, and then of `r` and `i` in turn, until nothing is pending and
    /// the program has ended or the limit is reached. The board is shown to the watch after each event. Where
    /// memory runs out, the board is gone.
    pub fn run<W: Watch>(mut self, schedule: &Schedule, watch: &mut W) -> Result<Outcome, NoMemory>
        requires { self.events ≡ 0 }
        ensures outcome { IfOk result (λ o. (r : Run) → r.schedule ≡ schedule.now
            → IsAt r opening_moment self → IsOutcome r o) }
        ensures only { (r : Run) (o other : OutcomeValue) → IsOutcome r o → IsOutcome r other
            → o ≡ other }
        ensures limit_end { IfOk result (λ o. (r : Run) → IsAt r opening_moment self
            → (o.end ≡ EndValue.Limit) ↔ (o.retired ≡ self.limit)) }
        ensures within { IfOk result (λ o. o.events ≤ length schedule.now + 8 * self.limit + 8) }

        // Once all transactions of some instructions are done, memory is that of the history.
        ensures words { (p : Program) (n : ℕ) → IsProgram p
            → bus_at p n (transaction_count p n) ≡ in_words (state p n).memory }
        ensures watched { IfOk result (λ o. (r : Run) → r.schedule ≡ schedule.now
            → IsAt r opening_moment self
            → Saw (W.seen watch.old) (W.seen watch.new)
            (glances_along r.program (moment_after r) o.events)) }
        ensures err { OnErr result ((r : Run) → r.schedule ≡ schedule.now
            → IsAt r opening_moment self
            → (events : ℕ) × IsRunning r events
            × Saw (W.seen watch.old) (W.seen watch.new)
            (glances_along r.program (moment_after r) events)) }
    {
        let mut walk = Walk::new(&mut self, schedule);
        walk.go_until(Until::Over, watch)?;
        self.outcome()
    }

    /// Makes `r` events until nothing is pending. The board is shown to the watch after each event. Where memory
    /// runs out, the board stands after whole events.
    pub fn drain<W: Watch>(&mut self, watch: &mut W) -> Result<(), NoMemory>
        requires { self.old.events + most_pending < most_events }
        ensures ok { OnOk result ((r : Run) (m : Moment)
            → IsAt r m self.old
            → (events : ℕ) × IsDrain r m events
            × IsAlong r (answered_after r m) events
            (W.seen watch.old) (W.seen watch.new) self.new) }
        ensures empty { OnOk result (self.new.pending ≡ []) }
        ensures settled { OnOk result ((r : Run) (m : Moment)
            → IsAt r m self.old
            → IsSettled r.program m self.new) }
        ensures bounded { self.new.events ≤ self.old.events + length self.old.pending }
        ensures lighter { IsNoHeavier self.old self.new }
        ensures same { IsSameRun self.old self.new }
        ensures err { OnErr result ((r : Run) (m : Moment)
            → IsAt r m self.old
            → (events : ℕ) × IsDraining r m events
            × IsAlong r (answered_after r m) events
            (W.seen watch.old) (W.seen watch.new) self.new) }
    {
        self.follow(Route::Answers, watch)
    }

    /// Makes the events of a route until it stops. The board is shown to the watch after each. Where memory runs
    /// out, it stands after whole events.
    // Inlined, so that each caller has the loop of its own route.
    #[inline(always)]
    #[tactic(auto, using(crate::proofs::Routes::next_counted))]
    pub(crate) fn follow<W: Watch>(&mut self, route: Route, watch: &mut W) -> Result<(), NoMemory>
        requires { CanBeCounted route self.old }
        ensures ok { OnOk result ((r : Run) (m : Moment)
            → IsAt r m self.old
            → (events : ℕ) × IsFirst (stops_at_event route.entry r m) events
            × IsAlong r (moments_by route.entry r m) events
            (W.seen watch.old) (W.seen watch.new) self.new
            × (self.new.events ≡ self.old.events + events)) }
        ensures answered { route.entry ≡ RouteValue.Answers
            → OnOk result (self.new.pending ≡ []) }
        ensures counted { self.old.events ≤ self.new.events }
        ensures kept { OnOk result (IsKept self.new) }
        ensures bounded { IsBoundedBy route.entry self.old self.new }
        ensures same { IsSameRun self.old self.new }
        ensures err { OnErr result ((r : Run) (m : Moment)
            → IsAt r m self.old
            → (events : ℕ) × NotBefore (stops_at_event route.entry r m) events
            × IsAlong r (moments_by route.entry r m) events
            (W.seen watch.old) (W.seen watch.new) self.new
            × (self.new.events ≡ self.old.events + events)) }
    {
        // Every route ends: what bounds it bounds the events so far.
        let first = self.book.events;
        let mut told = Told::nothing();
        while let Some(letter) = route.next(self, self.book.events - first) {
            self.step(letter, watch, &mut told)?;
        }
        Ok(())
    }

    /// What a run came to that is over. Where memory runs out, the board is gone.
    pub fn outcome(self) -> Result<Outcome, NoMemory>
        ensures events { IfOk result (λ o. o.events ≡ self.events) }
        ensures value { IfOk result (λ o. self.pending ≡ []
            → o ≡ outcome_by (image_bus self.memory.image) (local_of self)) }
        ensures moment { IfOk result (λ o. (r : Run) (m : Moment)
            → IsAt r m self → is_over r m ≡ true
            → o ≡ outcome_at r.program m) }
        ensures limit_end { IfOk result (λ o. (r : Run) (m : Moment)
            → IsAt r m self → is_over r m ≡ true
            → (o.end ≡ EndValue.Limit) ↔ (o.retired ≡ self.limit)) }
    {
        let regs = self.regs.values();
        self.book
            .into_outcome(regs, self.ctrl.carry(), &self.memory)
    }
}
