//! The object of a module as it grows statement by statement.
ghost use Rattle.std.specs.Prelude.{◌≡◌, ◌⊎◌, ◌*◌, ◌^◌, ◌-◌, ◌<◌, ◌%◌, [], None, Some, bytes_eq, length, map, IfErr, OnOk, IfOk, ◌∷◌};
ghost use Rattle.std.specs.List.{All};
ghost use Rattle.std.specs.Option.{option_map};
ghost use Rattle.m88_parse.specs.WellFormed.{IsFormedBody, IsFormedStatement};
ghost use Rattle.m88_link.specs.Sound.{HasRoom};
ghost use Rattle.m88_link.specs.Symbols.{first_repeated, repeated_after, repetition};
ghost use Rattle.m88_asm.specs.Counters.{offset_here, place_here};
ghost use Rattle.indexmap.specs.IndexSet.{contains};
ghost use Rattle.m88_asm.specs.Inside.Exports.{marked_where};
ghost use Rattle.m88_asm.specs.Inside.Firsts.{AnswersFirst};
ghost use Rattle.m88_asm.specs.Inside.Drafts.{counters_of, empty_growth, here_bytes, next_row, nth, with_body, with_bytes, with_section, with_statement, with_symbols};
ghost use Rattle.m88_asm.specs.Fault.{memory_ran_out};
ghost use Rattle.m88_asm.specs.Faults.{duplicate_at, fault_in, misfit_at};
ghost use Rattle.m88_asm.specs.Objects.{labels_at, sets_at, symbols_of};

use crate::exports::marked;
use crate::fault::{AsmFault, AsmKind};
use crate::filling::{alignment_of, consume_body, fill, length_at};
use crate::growing::Growing;
use indexmap::IndexSet;
use m88_base::{Listed, MOST_BYTES, Name};
use m88_link::{Object, Place, Reloc, Section, Symbol, SymbolTable};
use m88_parse::{Body, Statement};
use std::alloc::{AllocError, Global};
use std::marker::Model;

/// The sections of a module so far, the one that stands, its symbols and the uses of symbols.
#[derive(Drop)]
pub(crate) struct Assembly {
    sections: Vec<Growing>,
    here: usize,
    symbols: SymbolTable,
    uses: Vec<Reloc>,
}

impl Model for Assembly {
    ghost use Rattle.m88_asm.specs.Inside.Drafts.{Growth, HasSections};

    ghost Value = { Growth };

    ghost view = { λ a. record {
      sections = a.sections.items;
      here = a.here;
      symbols = a.symbols;
      uses = a.uses.items;
    } };

    ghost invariant = { λ a. HasSections a.sections.items a.here };
}

impl Assembly {
    /// A module without statements, whose text and data have this line, with room for `labels` symbols.
    pub fn new(alloc: Global, line: u32, labels: usize) -> Result<Assembly, AllocError>
        ensures { IfOk result (λ a. a ≡ empty_growth line) }
    {
        let mut sections = Vec::new(alloc);
        sections.push(Growing::new(alloc, Place::Text, line))?;
        sections.push(Growing::new(alloc, Place::DataSection, line))?;
        Ok(Assembly {
            sections,
            here: 0,
            symbols: SymbolTable::with_room(alloc, labels)?,
            uses: Vec::new(alloc),
        })
    }

    /// Defines a symbol, unless its name is defined already.
    fn define(&mut self, symbol: Symbol) -> Result<(), AsmFault>
        ensures new { OnOk result (self.new ≡ with_symbols self.old (symbol ∷ [])) }
        ensures fresh { OnOk result (repetition self.old.symbols symbol ≡ None) }
        ensures fault { IfErr result (λ e. (e ≡ memory_ran_out)
            ⊎ (option_map duplicate_at (repetition self.old.symbols symbol) ≡ Some e)) }
    {
        if let Some(first) = self.symbols.get(&symbol.name) {
            return Err(AsmFault {
                line: symbol.line,
                col: symbol.col,
                kind: AsmKind::Duplicate {
                    name: symbol.name,
                    first: first.line,
                },
            });
        }
        self.symbols.add(symbol)?;
        Ok(())
    }

    /// Defines a label as the next byte of the section that stands.
    fn label(&mut self, line: u32, label: &Option<(Name, u32)>) -> Result<(), AsmFault>
        requires { length self.old.sections < 2 ^ 32 }
        ensures new { OnOk result (self.new ≡ with_symbols self.old
            (labels_at (counters_of self.old.sections self.old.here) line label.now)) }
        ensures fresh { OnOk result (repeated_after self.old.symbols
            (labels_at (counters_of self.old.sections self.old.here) line label.now) ≡ None) }
        ensures fault { IfErr result (λ e. (e ≡ memory_ran_out)
            ⊎ (option_map duplicate_at (repeated_after self.old.symbols
            (labels_at (counters_of self.old.sections self.old.here) line label.now)) ≡ Some e)) }
    {
        match label {
            None => Ok(()),
            Some((name, col)) => {
                let symbol = Symbol {
                    name: *name,
                    global: false,
                    section: Some(self.here as u32),
                    value: self.sections[self.here].len() as u32,
                    line,
                    col: *col,
                };
                self.define(symbol)
            }
        }
    }

    /// Defines the symbol of a `.set` as its number.
    fn set(&mut self, line: u32, body: &Body) -> Result<(), AsmFault>
        ensures new { OnOk result (self.new ≡ with_symbols self.old (sets_at line body.now)) }
        ensures fresh { OnOk result
            (repeated_after self.old.symbols (sets_at line body.now) ≡ None) }
        ensures fault { IfErr result (λ e. (e ≡ memory_ran_out)
            ⊎ (option_map duplicate_at
            (repeated_after self.old.symbols (sets_at line body.now)) ≡ Some e)) }
    {
        match body {
            Body::Set { name, col, value } => {
                let symbol = Symbol {
                    name: *name,
                    global: false,
                    section: None,
                    value: *value,
                    line,
                    col: *col,
                };
                self.define(symbol)
            }
            _ => Ok(()),
        }
    }

    /// Makes the section stand in which a body stands.
    fn enter(&mut self, alloc: Global, line: u32, body: &Body) -> Result<(), AllocError>
        ensures { OnOk result (self.new ≡ with_section self.old line body.now) }
    {
        match body {
            Body::Text => {
                self.here = 0;
                Ok(())
            }
            Body::DataSection => {
                self.here = 1;
                Ok(())
            }
            Body::At(address) => {
                let number = self.sections.len();
                self.sections
                    .push(Growing::new(alloc, Place::At(*address), line))?;
                self.here = number;
                Ok(())
            }
            _ => Ok(()),
        }
    }

    /// The fault of a statement that the section that stands can't take: for its alignment, or for the
    /// room left.
    fn misfit(&self, x: &Statement) -> Option<AsmFault>
        requires { IsFormedStatement x.now }
        ensures { result ≡ misfit_at (offset_here (counters_of self.now.sections self.now.here))
            (place_here (counters_of self.now.sections self.now.here)) x.now }
    {
        let section = &self.sections[self.here];
        let place = section.place();
        if place % alignment_of(&x.body) != 0 {
            return Some(AsmFault {
                line: x.line,
                col: x.col,
                kind: AsmKind::Alignment,
            });
        }
        let length = length_at(place, &x.body);
        if length > MOST_BYTES - section.len() || length > (1 << 32) - place {
            return Some(AsmFault {
                line: x.line,
                col: x.col,
                kind: AsmKind::TooLarge,
            });
        }
        None
    }

    /// Puts a body's bytes and uses into the section that stands.
    fn fill(&mut self, line: u32, body: &Body) -> Result<(), AllocError>
        requires formed { IsFormedBody body.now }
        requires few { length self.old.sections < 2 ^ 32 }
        requires room { HasRoom
            (with_bytes (nth self.old.sections self.old.here) (here_bytes self.old body.now)) }
        ensures { OnOk result (self.new ≡ with_body self.old line body.now) }
    {
        let number = self.here as u32;
        let section = &mut self.sections[self.here];
        fill(section, &mut self.uses, number, line, body)
    }

    /// Fills the current section with a statement's body that is handed over, at a line from 1.
    fn consume_body(&mut self, line: u32, body: Body) -> Result<(), AllocError>
        requires formed { IsFormedBody body }
        requires few { length self.old.sections < 2 ^ 32 }
        requires room { HasRoom
            (with_bytes (nth self.old.sections self.old.here) (here_bytes self.old body)) }
        ensures { OnOk result (self.new ≡ with_body self.old line body) }
    {
        let number = self.here as u32;
        let section = &mut self.sections[self.here];
        consume_body(section, &mut self.uses, number, line, body)
    }

    /// Goes on with all of a statement but what its body gives, or answers the first fault that it has.
    fn prepare(&mut self, alloc: Global, x: &Statement) -> Result<(), AsmFault>
        requires formed { IsFormedStatement x.now }
        requires few { length self.old.sections < 2 ^ 32 - 1 }
        ensures entered { AnswersFirst result (fault_in self.old.symbols (next_row self.old x.now))
            (λ _. self.new ≡ with_section
            (with_symbols self.old (symbols_of (next_row self.old x.now))) x.now.line x.now.body) }
        ensures few { OnOk result (length self.new.sections < 2 ^ 32) }
        ensures room { OnOk result (HasRoom
            (with_bytes (nth self.new.sections self.new.here) (here_bytes self.new x.now.body))) }
    {
        match self.label(x.line, &x.label) {
            Ok(()) => {}
            Err(fault) => return Err(fault),
        }
        match self.set(x.line, &x.body) {
            Ok(()) => {}
            Err(fault) => return Err(fault),
        }
        self.enter(alloc, x.line, &x.body)?;
        match self.misfit(x) {
            None => Ok(()),
            Some(fault) => Err(fault),
        }
    }

    /// Goes on with a statement, or answers the first fault that it has.
    pub fn add(&mut self, alloc: Global, x: &Statement) -> Result<(), AsmFault>
        requires formed { IsFormedStatement x.now }
        requires few { length self.old.sections < 2 ^ 32 - 1 }
        ensures { AnswersFirst result (fault_in self.old.symbols (next_row self.old x.now))
            (λ _. self.new ≡ with_statement self.old x.now) }
    {
        match self.prepare(alloc, x) {
            Ok(()) => {}
            Err(fault) => return Err(fault),
        }
        self.fill(x.line, &x.body)?;
        Ok(())
    }

    /// Goes on with a statement that is handed over, or answers the first fault that it has.
    pub fn consume(&mut self, alloc: Global, x: Statement) -> Result<(), AsmFault>
        requires formed { IsFormedStatement x }
        requires few { length self.old.sections < 2 ^ 32 - 1 }
        ensures { AnswersFirst result (fault_in self.old.symbols (next_row self.old x))
            (λ _. self.new ≡ with_statement self.old x) }
    {
        match self.prepare(alloc, &x) {
            Ok(()) => {}
            Err(fault) => return Err(fault),
        }
        self.consume_body(x.line, x.body)?;
        Ok(())
    }

    /// The object of a module of this name, whose `.global` name these.
    pub fn into_object(
        self,
        alloc: Global,
        name: Name,
        names: &IndexSet<Name>,
    ) -> Result<Object, AllocError>
        ensures value { IfOk result (λ o. o ≡ record {
          name = name;
          sections = self.sections;
          symbols = map (marked_where (contains bytes_eq names.now)) self.symbols;
          relocs = self.uses;
        }) }
        ensures room { IfOk result (λ o. All HasRoom o.sections) }
        ensures names { first_repeated self.symbols ≡ None }
    {
        let Assembly {
            sections,
            here: _here,
            symbols,
            uses,
        } = self;
        // The symbols first: it is known then that no name is there twice, wherever memory runs out.
        let symbols = symbols.into_symbols(alloc)?;
        let sections = finished(alloc, sections)?;
        let symbols = marked(alloc, &symbols, names)?;
        Ok(Object {
            name,
            sections: Listed::new(sections),
            symbols: Listed::new(symbols),
            relocs: Listed::new(uses),
        })
    }
}

/// The sections as they stand.
fn finished(alloc: Global, growing: Vec<Growing>) -> Result<Vec<Section>, AllocError>
    ensures value { IfOk result (λ v. v.items ≡ growing.items) }
    ensures room { IfOk result (λ v. All HasRoom v.items) }
{
    let mut out = Vec::with_capacity(alloc, growing.len())?;
    for section in growing {
        out.push(section.into_section())?;
    }
    Ok(out)
}
