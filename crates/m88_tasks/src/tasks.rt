//! Programs that share a board.

ghost use Rattle.std.specs.Prelude.{◌≡◌, ◌<◌, ◌≤◌, length, false, IfOk, OnErr};
ghost use Rattle.m88_board.specs.Kept.{most_events, most_retired};
ghost use Rattle.m88_mem.specs.Marks.{NamesPages};
ghost use Rattle.m88_tasks.specs.Inside.Taking.{IsSharedOf};
ghost use Rattle.m88_tasks.specs.Shared.{Group, IsShared, SharedMoment, all_over};
ghost use Rattle.m88_tasks.specs.Tasks.{AreTasks, BeginsTasks, IsTasksAt, MadeEvent, RanShared, is_over_view, most_programs};
ghost use Rattle.m88_tasks.specs.declared.shared.Shared.{Shared as SharedValue};

use crate::letter::ShareLetter;
use crate::programs::Programs;
use crate::schedule::ShareSchedule;
use crate::shared::{Shared, Switch};
use crate::turned::Turned;
use m88_base::{Absent, Image, Listed, NoMemory};
use m88_board::{Board, Context};
use std::alloc::Global;
use std::marker::Model;

/// One to eight programs that share a board by interrupts, numbered from 0. Each has its own image, data bus and absent
/// pages.
#[derive(Drop, Debug)]
pub struct Tasks {
    programs: Programs,
    events: u64,
    switches: Vec<Switch>,
}

impl Model for Tasks {
    ghost use Rattle.m88_tasks.specs.Tasks.{AreTasks, TasksView};

    ghost Value = { TasksView };

    ghost view = { λ t. record {
      programs = t.programs;
      events = t.events;
      switches = t.switches.items;
    } };

    ghost invariant = { λ t. AreTasks (record {
      programs = t.programs;
      events = t.events;
      switches = t.switches.items;
    }) };
}

impl Tasks {
    /// The programs of one to eight images, before the first event, each in mode 0: of each the pages that are named
    /// are absent, and it retires at most `limit` instructions.
    pub fn new(
        alloc: Global,
        images: &[Image],
        absent: &Absent,
        limit: u32,
    ) -> Result<Tasks, NoMemory>
        requires some { 1 ≤ length images.now }
        requires few { length images.now ≤ most_programs }
        requires pages { NamesPages absent.now }
        requires small { limit ≤ most_retired }
        ensures { IfOk result (BeginsTasks images.now absent.now limit) }
    {
        let board = Board::new(alloc, &images[0], absent, limit, false)?;
        let mut contexts = Vec::new(alloc);
        contexts.push(None).or(Err(NoMemory))?;
        for q in 1..images.len() {
            let context = Context::new(alloc, &images[q], absent, limit, false)?;
            contexts.push(Some(context)).or(Err(NoMemory))?;
        }
        Ok(Tasks {
            programs: Programs::new(board, contexts),
            events: 0,
            switches: Vec::new(alloc),
        })
    }

    /// The events so far, of the whole board.
    pub fn events(&self) -> u64
        ensures value { result ≡ self.now.events }
        ensures moment { (g : Group) (s : SharedMoment) → IsTasksAt g s self.now
            → result ≡ s.events }
        ensures kept { AreTasks self.now }
    {
        self.events
    }

    /// Whether every program is over.
    pub fn is_over(&self) -> bool
        ensures value { result ≡ is_over_view self.now }
        ensures moment { (g : Group) (s : SharedMoment) → IsTasksAt g s self.now
            → result ≡ all_over g s.moments }
    {
        self.programs.board().is_over()
    }

    /// Makes the event of a letter: the program that runs takes its own, and at an interrupt the next program runs,
    /// unless something is pending or every other program is over. Where the program that runs is over afterwards,
    /// the next one runs. Where memory runs out, nothing changed, and no event is counted.
    pub fn event(&mut self, letter: ShareLetter) -> Result<Turned, NoMemory>
        requires going { is_over_view self.old ≡ false }
        requires room { self.old.events < most_events }
        ensures made { IfOk result (λ turned. MadeEvent letter self.old turned self.new) }
        ensures err { OnErr result (self.new ≡ self.old) }
    {
        let turned = self
            .programs
            .take(letter, self.events + 1, &mut self.switches)?;
        self.events += 1;
        Ok(turned)
    }

    /// Makes the events of the letters of a schedule, and then of `r` and `i` in turn, until every program is over.
    /// Where memory runs out, the programs are gone.
    pub fn run(mut self, schedule: &ShareSchedule) -> Result<Shared, NoMemory>
        requires { self.events ≡ 0 }
        ensures ran { IfOk result (RanShared schedule.now self) }
        ensures only { (g : Group) (o other : SharedValue)
            → IsShared g schedule.now o → IsShared g schedule.now other → o ≡ other }
    {
        // Each event takes something off what is left of the programs, so every shared run is over.
        prove!(self.events() == 0);
        prove!(schedule.len() <= 65_536);
        let mut taken = 0;
        while !self.is_over() {
            self.event(schedule.letter_at(taken))?;
            taken += 1;
        }
        self.outcome()
    }

    /// What a shared run came to that is over.
    fn outcome(self) -> Result<Shared, NoMemory>
        ensures { IfOk result (IsSharedOf self) }
    {
        let outcomes = self.programs.outcomes()?;
        Ok(Shared {
            outcomes: Listed::new(outcomes),
            switches: Listed::new(self.switches),
            events: self.events,
        })
    }
}
