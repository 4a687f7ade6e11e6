//! The modules of a source as they grow, line by line.
ghost use Rattle.std.specs.Prelude.{◌≡◌, ◌∷◌, Some, [], IfOk, IfErr, OnErr, MatchResult};
ghost use lib.Chars.{codes};
ghost use Rattle.m88_parse.specs.Fault.{out_of_memory};
ghost use Rattle.m88_parse.specs.Inside.Source.{a_statement, a_head, main_with};
ghost use Rattle.m88_parse.specs.Inside.Drafts.{nothing_yet, with_more, begun, modules_after, Follows};

use crate::fault::ParseFault;
use crate::names::name_of;
use crate::unit::{Module, Statement};
use m88_base::{Listed, Name};
use std::alloc::Global;
use std::marker::Model;

/// A module whose end hasn't come.
#[derive(Drop)]
struct Open {
    name: Name,
    line: u32,
    statements: Vec<Statement>,
}

impl Model for Open {
    ghost use Rattle.m88_parse.specs.declared.unit.Module.{Module as ModuleValue};

    ghost Value = { ModuleValue };

    ghost view = { λ o. record { name = o.name; line = o.line; statements = o.statements.items } };
}

/// The modules of the lines so far: those that are closed, and the one that is open, if one has
/// begun.
#[derive(Drop)]
pub(crate) struct Draft {
    closed: Vec<Module>,
    current: Option<Open>,
}

impl Model for Draft {
    ghost use Rattle.m88_parse.specs.Inside.Drafts.{Drafted};

    ghost Value = { Drafted };

    ghost view = { λ d. record { closed = d.closed.items; current = d.current } };
}

/// The name of the module of statements that stand before the first `.module`.
#[tactic(auto, unfolding(crate::specs::Inside::Names::is_valid_name))]
fn main_name() -> Name
    ensures { result ≡ codes "main" }
{
    name_of(b"main").unwrap()
}

impl Open {
    /// The module main, which begins in line 1.
    fn main(alloc: Global) -> Open
        ensures { result ≡ main_with [] }
    {
        Open {
            name: main_name(),
            line: 1,
            statements: Vec::new(alloc),
        }
    }

    /// The open module, or the module main where none has begun.
    fn begun(alloc: Global, current: Option<Open>) -> Open
        ensures { result ≡ begun current }
    {
        match current {
            Some(open) => open,
            None => Open::main(alloc),
        }
    }

    /// One statement more.
    // Called, it would have the statement made in one place and copied to another before it is pushed.
    #[inline(always)]
    fn push(&mut self, statement: Statement) -> Result<(), ParseFault>
        ensures value { IfOk result (λ _. self.new ≡ with_more self.old (statement ∷ [])) }
        ensures memory { IfErr result (λ e. e ≡ out_of_memory) }
        ensures kept { OnErr result (self.new ≡ self.old) }
    {
        self.statements.push(statement)?;
        Ok(())
    }

    /// The module as it stands at its end.
    fn close(self) -> Module
        ensures { result ≡ self }
    {
        let Open {
            name,
            line,
            statements,
        } = self;
        Module {
            name,
            line,
            statements: Listed::new(statements),
        }
    }
}

impl Draft {
    /// Nothing, before the first line.
    pub fn new(alloc: Global) -> Draft
        ensures { result ≡ nothing_yet }
    {
        Draft {
            closed: Vec::new(alloc),
            current: None,
        }
    }

    /// A statement more in the open module, or in the module main where none has begun.
    // Called, it would have each statement made in one place and copied to another before it is pushed.
    #[inline(always)]
    pub fn push(&mut self, alloc: Global, statement: Statement) -> Result<(), ParseFault>
        ensures after { IfOk result (λ _.
            Follows self.new self.old (Some (a_statement statement))) }
        ensures memory { IfErr result (λ e. e ≡ out_of_memory) }
    {
        match &mut self.current {
            Some(open) => open.push(statement),
            None => {
                let mut open = Open::main(alloc);
                open.push(statement)?;
                self.current = Some(open);
                Ok(())
            }
        }
    }

    /// The end of the open module, if there is one, and the head of the next.
    pub fn begin(&mut self, alloc: Global, name: Name, line: u32) -> Result<(), ParseFault>
        ensures after { IfOk result (λ _. Follows self.new self.old (Some (a_head name line))) }
        ensures memory { IfErr result (λ e. e ≡ out_of_memory) }
    {
        let next = Open {
            name,
            line,
            statements: Vec::new(alloc),
        };
        match self.current.replace(next) {
            Some(open) => {
                self.closed.push(open.close())?;
                Ok(())
            }
            None => Ok(()),
        }
    }

    /// The modules at the end of the source.
    pub fn finish(self, alloc: Global) -> Result<Vec<Module>, ParseFault>
        ensures { MatchResult result (λ v. v.items ≡ modules_after self [])
            (λ e. e ≡ out_of_memory) }
    {
        let Draft {
            mut closed,
            current,
        } = self;
        closed.push(Open::begun(alloc, current).close())?;
        Ok(closed)
    }
}
