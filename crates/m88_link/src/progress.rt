//! An object text read line by line: the objects that are whole, and the one whose end hasn't come.
ghost use Rattle.std.specs.Prelude.{◌≡◌};
ghost use Rattle.m88_link.specs.declared.row.Row.TheVariants as row;
ghost use Rattle.m88_link.specs.Inside.Drafts.{GivesObjects, TakesOrRefuses, at_rest, begin_step, bytes_step, end_step, line_step, nothing_read, row_step, within};

use crate::object::{Object, Reloc, Symbol};
use crate::object_draft::Draft;
use crate::object_fault::ObjectFault;
use crate::row::{Row, SectionHead};
use crate::row_text::row_of;
use m88_base::Name;
use std::alloc::{AllocError, Global};
use std::marker::Model;

/// What the lines so far give: the objects that are whole, and the one whose end hasn't come.
#[derive(Drop)]
pub struct Progress {
    alloc: Global,
    done: Vec<Object>,
    draft: Option<Draft>,
}

impl Model for Progress {
    ghost use Rattle.m88_link.specs.Inside.Drafts.{Progress as ProgressValue};

    ghost Value = { ProgressValue };

    ghost view = { λ p. record { done = p.done.items; draft = p.draft } };
}

impl Progress {
    /// Nothing, before the first line.
    pub fn new(alloc: Global) -> Progress
        ensures { result ≡ nothing_read }
    {
        Progress {
            alloc,
            done: Vec::new(alloc),
            draft: None,
        }
    }

    /// One line more, without its LF; `false` where no objects' text continues the lines before with it.
    #[tactic(auto, unfolding(crate::specs::Inside::Drafts::line_step))]
    pub fn line(&mut self, line: &[u8]) -> Result<bool, AllocError>
        ensures { TakesOrRefuses result self.new (line_step self.old line.now) }
    {
        match line {
            [] => Ok(false),
            [b'=', digits @ ..] => self.bytes(digits),
            _ => match row_of(line) {
                Some(row) => self.row(row),
                None => Ok(false),
            },
        }
    }

    /// A line with bytes.
    fn bytes(&mut self, digits: &[u8]) -> Result<bool, AllocError>
        ensures { TakesOrRefuses result self.new (within self.old (bytes_step digits.now)) }
    {
        match &mut self.draft {
            Some(draft) => draft.bytes(digits),
            None => Ok(false),
        }
    }

    /// A line without bytes.
    fn row(&mut self, row: Row) -> Result<bool, AllocError>
        ensures { TakesOrRefuses result self.new (row_step self.old row) }
    {
        match row {
            Row::Begin(name) => Ok(self.begin(name)),
            Row::Head(head) => self.head(head),
            Row::Define(symbol) => self.define(symbol),
            Row::Patch(reloc) => self.patch(reloc),
            Row::End => self.end(),
        }
    }

    /// An object begins, where none has begun.
    #[tactic(auto, unfolding(crate::specs::Inside::Drafts::begin_step))]
    fn begin(&mut self, name: Name) -> bool
        ensures { TakesOrRefuses (Ok result) self.new (begin_step name self.old) }
    {
        if self.draft.is_some() {
            return false;
        }
        self.draft = Some(Draft::new(self.alloc, name));
        true
    }

    /// A section begins.
    fn head(&mut self, head: SectionHead) -> Result<bool, AllocError>
        ensures { TakesOrRefuses result self.new (row_step self.old (row.Head head)) }
    {
        match &mut self.draft {
            Some(draft) => draft.head(self.alloc, head),
            None => Ok(false),
        }
    }

    /// A symbol.
    fn define(&mut self, symbol: Symbol) -> Result<bool, AllocError>
        ensures { TakesOrRefuses result self.new (row_step self.old (row.Define symbol)) }
    {
        match &mut self.draft {
            Some(draft) => draft.define(symbol),
            None => Ok(false),
        }
    }

    /// A relocation.
    fn patch(&mut self, reloc: Reloc) -> Result<bool, AllocError>
        ensures { TakesOrRefuses result self.new (row_step self.old (row.Patch reloc)) }
    {
        match &mut self.draft {
            Some(draft) => draft.patch(reloc),
            None => Ok(false),
        }
    }

    /// The end of an object, where it is whole.
    #[tactic(auto, unfolding(crate::specs::Inside::Drafts::end_step))]
    fn end(&mut self) -> Result<bool, AllocError>
        ensures { TakesOrRefuses result self.new (end_step self.old) }
    {
        let Some(draft) = self.draft.take() else {
            return Ok(false);
        };
        if !draft.is_whole() {
            return Ok(false);
        }
        self.done.push(draft.into_object())?;
        Ok(true)
    }

    /// The objects at the end of the text, where there are some and all are whole; `number` is that of
    /// the line behind the last one.
    pub fn finish(self, number: u32) -> Result<Vec<Object>, ObjectFault>
        ensures { GivesObjects (λ v. v.items) result (at_rest number self) }
    {
        if self.draft.is_some() || self.done.is_empty() {
            return Err(ObjectFault::Form { line: number });
        }
        let Progress { done, .. } = self;
        Ok(done)
    }
}
