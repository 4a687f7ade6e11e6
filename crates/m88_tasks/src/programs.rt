//! The program that runs, on the board, and the contexts of the others.

ghost use Rattle.std.specs.Prelude.{ℕ, Bool, ◌≡◌, ◌<◌, ◌≤◌, ◌+◌, ◌-◌, is_some, length, true, false, IfOk, OnErr};
ghost use Rattle.m88_board.specs.Contexts.{StandsFor};
ghost use Rattle.m88_board.specs.Kept.{most_events};
ghost use Rattle.m88_board.specs.declared.context.Context.{Context as ContextValue};
ghost use Rattle.m88_event.specs.Run.{outcome_at};
ghost use Rattle.m88_event.specs.Timeline.{Moment, Run, is_over};
ghost use Rattle.m88_isa.specs.Machine.{Program};
ghost use Rattle.m88_tasks.specs.Shared.{Group, SharedMoment, all_over, first_alive, next_from, outcomes_of, over_at, settled_from, switch_by};
ghost use Rattle.m88_tasks.specs.Inside.Taking.{AreLeft, AreNumbers, IsOutcomeOf, MayExchange, TookLetter, stays};
ghost use Rattle.m88_tasks.specs.Tasks.{ArePlaces, ArePrograms, AreSomePrograms, IsOnlyNone, IsTaken};
ghost use Rattle.m88_tasks.specs.declared.letter.ShareLetter.TheVariants as share;

use crate::letter::ShareLetter;
use crate::shared::Switch;
use crate::turned::Turned;
use m88_base::NoMemory;
use m88_board::{Board, Context};
use m88_event::{Happened, Letter, Outcome, Record};
use std::marker::Model;

/// The board, on which one program runs, and the contexts of the others by their numbers. There is none for the one
/// that runs.
#[derive(Drop, Debug)]
pub struct Programs {
    board: Board,
    contexts: Vec<Option<Context>>,
    current: usize,
}

impl Model for Programs {
    ghost use Rattle.m88_tasks.specs.Tasks.{AreSomePrograms, ProgramsView};

    ghost Value = { ProgramsView };

    ghost view = { λ p. record {
      board = p.board;
      contexts = p.contexts.items;
      current = p.current;
    } };

    ghost invariant = { λ p. AreSomePrograms (record {
      board = p.board;
      contexts = p.contexts.items;
      current = p.current;
    }) };
}

impl Programs {
    /// The first program on a board, and the contexts of the others.
    pub fn new(board: Board, contexts: Vec<Option<Context>>) -> Programs
        requires { AreSomePrograms (record {
          board = board;
          contexts = contexts.items;
          current = 0;
        }) }
        ensures { result ≡ record {
          board = board;
          contexts = contexts.items;
          current = 0;
        } }
    {
        Programs {
            board,
            contexts,
            current: 0,
        }
    }

    /// The board.
    pub fn board(&self) -> &Board
        ensures { result.now ≡ self.now.board }
    {
        &self.board
    }

    /// Whether a program is over.
    fn is_over_at(&self, q: usize) -> bool
        requires { q < length self.now.contexts }
        ensures { (g : Group) (moments : ℕ → Moment) (current : ℕ)
            → ArePrograms g moments current self.now → result ≡ over_at g moments q }
    {
        match &self.contexts[q] {
            Some(context) => is_over(context),
            None => self.board.is_over(),
        }
    }

    /// The first program that isn't over, from one on and before another.
    fn first_alive(&self, from: usize, before: usize) -> Option<usize>
        requires { before ≤ length self.now.contexts }
        ensures { (g : Group) (moments : ℕ → Moment) (current : ℕ)
            → ArePrograms g moments current self.now
            → result ≡ first_alive g moments from (before - from) }
    {
        for q in from..before {
            if !self.is_over_at(q) {
                return Some(q);
            }
        }
        None
    }

    /// The next program in cyclic order that isn't over; where each is over, the one that runs.
    fn next(&self) -> usize
        ensures { (g : Group) (moments : ℕ → Moment) (current : ℕ)
            → ArePrograms g moments current self.now
            → result ≡ next_from g moments current }
    {
        if let Some(q) = self.first_alive(self.current + 1, self.contexts.len()) {
            return q;
        }
        match self.first_alive(0, self.current + 1) {
            Some(q) => q,
            None => self.current,
        }
    }

    /// Another program runs from now on, by an interrupt.
    fn exchange(&mut self, to: usize)
        requires { MayExchange to self.old }
        ensures { (g : Group) (moments : ℕ → Moment) (current : ℕ)
            → ArePrograms g moments current self.old → ArePrograms g moments to self.new }
    {
        let Some(mut other) = self.contexts[to].take() else {
            unreachable!();
        };
        let Ok(_) = self.board.interrupt(&mut other) else {
            unreachable!();
        };
        self.contexts[self.current] = Some(other);
        self.current = to;
    }

    /// The program that runs takes a letter.
    fn step(&mut self, letter: Letter) -> Result<Happened, NoMemory>
        requires { self.old.board.events < most_events }
        ensures took { IfOk result (λ happened.
            TookLetter stays letter self.old happened self.new) }
        ensures err { OnErr result (self.new ≡ self.old) }
    {
        let happened = self.board.event(letter)?;
        Ok(happened)
    }

    /// Where the program that runs is over, the next one runs from now on that isn't, if there is one.
    fn settle(&mut self)
        ensures { (g : Group) (moments : ℕ → Moment) (current : ℕ)
            → ArePrograms g moments current self.old
            → ArePrograms g moments (settled_from g moments current) self.new }
    {
        if !self.board.is_over() {
            return;
        }
        let next = self.next();
        if next != self.current {
            self.exchange(next);
        }
    }

    /// The program that runs takes a letter; where it is over then, the next one runs from now on.
    fn own(&mut self, letter: Letter) -> Result<Happened, NoMemory>
        requires { self.old.board.events < most_events }
        ensures took { IfOk result (λ happened. TookLetter settled_from letter self.old happened
            self.new) }
        ensures err { OnErr result (self.new ≡ self.old) }
    {
        let happened = self.step(letter)?;
        self.settle();
        Ok(happened)
    }

    /// An interrupt, by which the next program runs from now on, unless something is pending or every other program is
    /// over. The switch joins the others.
    fn turn(&mut self, event: u64, switches: &mut Vec<Switch>) -> Result<Turned, NoMemory>
        ensures taken { IfOk result (λ turned. (g : Group) (s : SharedMoment)
            → ArePrograms g s.moments s.current self.old → over_at g s.moments s.current ≡ false
            → event ≡ s.events + 1 → switches.old.items ≡ s.switches
            → IsTaken g share.Turn s turned self.new switches.new.items) }
        ensures err { OnErr result (AreLeft self.old self.new switches.old.items
            switches.new.items) }
    {
        let pending = self.board.pending();
        if pending > 0 {
            return Ok(Turned::Held(pending));
        }
        let next = self.next();
        if next == self.current {
            return Ok(Turned::Alone);
        }
        let switch = switch_of(event, self.current, next, &self.board.pipe());
        switches.push(switch).or(Err(NoMemory))?;
        self.exchange(next);
        Ok(Turned::Switched(switch))
    }

    /// What a letter makes of the programs, by the number of its event; a switch joins the others.
    pub fn take(
        &mut self,
        letter: ShareLetter,
        event: u64,
        switches: &mut Vec<Switch>,
    ) -> Result<Turned, NoMemory>
        requires { self.old.board.events < most_events }
        ensures taken { IfOk result (λ turned. (g : Group) (s : SharedMoment)
            → ArePrograms g s.moments s.current self.old → over_at g s.moments s.current ≡ false
            → event ≡ s.events + 1 → switches.old.items ≡ s.switches
            → IsTaken g letter s turned self.new switches.new.items) }
        ensures err { OnErr result (AreLeft self.old self.new switches.old.items
            switches.new.items) }
    {
        match letter {
            ShareLetter::Own(letter) => Ok(Turned::Own(self.own(letter)?)),
            ShareLetter::Turn => self.turn(event, switches),
        }
    }

    /// What each program came to, in their order, where all are over.
    pub fn outcomes(self) -> Result<Vec<Outcome>, NoMemory>
        ensures { IfOk result (λ outcomes. (g : Group) (moments : ℕ → Moment) (current : ℕ)
            → ArePrograms g moments current self → all_over g moments ≡ true
            → outcomes.items ≡ outcomes_of g moments g.count) }
    {
        let own = self.board.outcome()?;
        outcomes_in(self.contexts, own)
    }
}

/// What the program of each place came to, in order: of the one that runs it is known.
fn outcomes_in(mut contexts: Vec<Option<Context>>, own: Outcome) -> Result<Vec<Outcome>, NoMemory>
    requires { (current : ℕ) × IsOnlyNone contexts.items current }
    ensures { IfOk result (λ outcomes. (g : Group) (moments : ℕ → Moment) (current : ℕ)
        → ArePlaces g moments current contexts.items
        → ((q : ℕ) → q < length contexts.items → over_at g moments q ≡ true)
        → own ≡ outcome_at (g.programs current) (moments current)
        → outcomes.items ≡ outcomes_of g moments (length contexts.items)) }
{
    let mut outcomes = Vec::new(*contexts.allocator());
    let mut kept = Some(own);
    for q in 0..contexts.len() {
        let outcome = outcome_of(contexts[q].take(), &mut kept)?;
        outcomes.push(outcome).or(Err(NoMemory))?;
    }
    Ok(outcomes)
}

/// Whether the program of a context is over.
fn is_over(context: &Context) -> bool
    ensures { (r : Run) (m : Moment) → StandsFor r m context.now
        → result ≡ is_over r m }
{
    context.book.end.is_some() || context.book.retired == context.book.limit
}

/// The switch of an event, by the words that are saved of the program that ran.
fn switch_of(event: u64, from: usize, to: usize, saved: &Record) -> Switch
    requires { AreNumbers from to }
    ensures { result ≡ switch_by event from to saved.now }
{
    Switch {
        event,
        from: from as u8,
        to: to as u8,
        epsr: saved.epsr,
        sxip: saved.sxip,
        snip: saved.snip,
        sfip: saved.sfip,
    }
}

/// What the program of a place came to: of the one that runs it is there already.
fn outcome_of(context: Option<Context>, own: &mut Option<Outcome>) -> Result<Outcome, NoMemory>
    requires { context ≡ None → is_some own.old ≡ true }
    ensures came { IfOk result (IsOutcomeOf context own.old) }
    ensures same { (c : ContextValue) → context ≡ Some c → own.new ≡ own.old }
{
    match context {
        Some(context) => context.outcome(),
        None => match own.take() {
            Some(outcome) => Ok(outcome),
            None => unreachable!(),
        },
    }
}
