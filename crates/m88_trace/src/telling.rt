//! What an event adds to a trace, by what was seen of the board before it.

ghost use Rattle.std.specs.Prelude.{ℕ, Bool, ◌≡◌, OnOk};
ghost use Rattle.m88_board.specs.Told.{IsTold};
ghost use Rattle.m88_event.specs.Past.{HasPast};
ghost use Rattle.m88_event.specs.Timeline.{DoneWereMade, Moment, Run, absent_at, after_letter, said_at};
ghost use Rattle.m88_event.specs.declared.letter.Letter.TheVariants as letters;
ghost use Rattle.m88_isa.specs.Bus.{listed};
ghost use Rattle.m88_isa.specs.History.{bus_at, pending_at};
ghost use Rattle.m88_isa.specs.Machine.{IsProgram, Program};
ghost use Rattle.m88_isa.specs.declared.planned.Effect.{Effect as EffectValue};
ghost use Rattle.m88_isa.specs.declared.planned.Plan.TheVariants.{Go};
ghost use Rattle.m88_trace.specs.Inside.Doings.{doing_line};
ghost use Rattle.m88_trace.specs.Inside.Running.{IsNext, IsTraced};
ghost use Rattle.m88_trace.specs.Inside.Sheets.{AreDue, AreMade, CanAdd, HasAdded};
ghost use Rattle.m88_trace.specs.declared.doing.Doing.TheVariants as doings;

use crate::sheet::{Data, Sheet};
use crate::upcoming::Upcoming;
use m88_base::NoMemory;
use m88_board::Told;
use m88_event::Happened;
use m88_isa::Plan;

impl Sheet {
    /// Writes what an event of `i` adds, by what was seen before it and what it told.
    pub(crate) fn note_issue(
        &mut self,
        next: &Upcoming,
        told: &Told,
        happened: Happened,
    ) -> Result<(), NoMemory>
        requires { CanAdd told.now.plan self.old }
        ensures traced { OnOk result ((r : Run) (m : Moment)
            → IsProgram r.program → HasPast r m → DoneWereMade r.program m
            → IsNext r.program m next.now → IsTold r m happened told.now
            → happened ≡ said_at r letters.Issue m → IsTraced r.program m self.old
            → IsTraced r.program (after_letter r letters.Issue m) self.new) }
        ensures made { OnOk result (AreMade self.new) }
    {
        match happened {
            Happened::Issued => self.note_issued(next, told),
            Happened::Served(byte) => self.put_out(next, told.word, byte),
            Happened::Ended(end) => self.end(end),
            _ => Ok(()),
        }
    }

    /// Writes the line of an instruction that was issued.
    fn note_issued(&mut self, next: &Upcoming, told: &Told) -> Result<(), NoMemory>
        requires { CanAdd told.now.plan self.old }
        ensures added { OnOk result ((effect : EffectValue) → told.now.plan ≡ Go effect → HasAdded
            (doing_line next.now.number next.now.at told.now.word (doings.Goes effect))
            (listed effect.accesses) self.old self.new) }
        ensures made { OnOk result (AreMade self.new) }
    {
        match &told.plan {
            Plan::Go(effect) => self.issue(next, told.word, effect),
            _ => Ok(()),
        }
    }

    /// Writes what an event of `r` adds, by the data that were seen before it.
    pub(crate) fn note_answer(&mut self, due: Data, happened: Happened)
        requires { AreMade self.old }
        ensures traced { (r : Run) (m : Moment)
            → HasPast r m → DoneWereMade r.program m
            → AreDue due (pending_at r.program m.retired m.done) (absent_at r m)
            (bus_at r.program m.retired m.done)
            → happened ≡ said_at r letters.Answer m → IsTraced r.program m self.old
            → IsTraced r.program (after_letter r letters.Answer m) self.new }
        ensures made { AreMade self.new }
    {
        match happened {
            Happened::Answered => self.fill(due.oldest),
            Happened::Faulted(_) => self.fill_all(due),
            _ => {}
        }
    }
}
