//! Symbols in order of definition, found by their names.
ghost use Rattle.std.specs.Prelude.{◌≡◌, ◌∷◌, ◌++◌, [], None, IfOk, OnOk, OnErr, option_copied};
ghost use Rattle.std.specs.Option.{option_map};
ghost use Rattle.m88_link.specs.Inside.Exports.{withdrawn};
ghost use Rattle.m88_link.specs.Symbols.{first_repeated, joined, symbol_of};

use crate::object::{Definition, Symbol};
use indexmap::IndexMap;
use m88_base::Name;
use std::alloc::{AllocError, Global};
use std::marker::Model;

/// Symbols in order of definition, no two of one name: a map of names has each of them once.
#[derive(Debug, Drop)]
pub struct SymbolTable {
    symbols: IndexMap<Name, Definition>,
}

impl Model for SymbolTable {
    ghost use Rattle.std.specs.Prelude.{List};
    ghost use Rattle.m88_link.specs.declared.object.Symbol.{Symbol as Defined};
    ghost use Rattle.m88_link.specs.Inside.Tables.{entry_symbols};

    ghost Value = { List Defined };

    ghost view = { λ table. entry_symbols table.symbols.entries };
}

impl SymbolTable {
    /// A table without symbols.
    pub fn new(alloc: Global) -> SymbolTable
        ensures { result ≡ [] }
    {
        SymbolTable {
            symbols: IndexMap::new(alloc),
        }
    }

    /// A table without symbols that has room for `n` of them.
    pub fn with_room(alloc: Global, n: usize) -> Result<SymbolTable, AllocError>
        ensures { IfOk result (λ table. table ≡ []) }
    {
        Ok(SymbolTable {
            symbols: IndexMap::with_capacity(alloc, n)?,
        })
    }

    /// What a name is defined as, where the table has a symbol of it.
    #[tactic(auto, using(crate::proofs::Tabled::found))]
    pub fn get(&self, name: &Name) -> Option<&Definition>
        ensures { option_map (joined name.now) (option_copied result)
            ≡ symbol_of self.now name.now }
    {
        self.symbols.get(name)
    }

    /// Adds a symbol whose name the table doesn't have.
    pub fn add(&mut self, symbol: Symbol) -> Result<(), AllocError>
        requires { symbol_of self.old symbol.name ≡ None }
        ensures ok { OnOk result (self.new ≡ self.old ++ symbol ∷ []) }
        ensures err { OnErr result (self.new ≡ self.old) }
    {
        let Symbol {
            name,
            global,
            section,
            value,
            line,
            col,
        } = symbol;
        let definition = Definition {
            global,
            section,
            value,
            line,
            col,
        };
        self.symbols.insert(name, definition)?;
        Ok(())
    }

    /// Marks the symbol of a name as not global, where the table has one.
    pub(crate) fn withdraw(&mut self, name: &Name) -> Result<(), AllocError>
        ensures { OnOk result (self.new ≡ withdrawn name.now self.old) }
    {
        if let Some(found) = self.symbols.get(name) {
            let definition = Definition {
                global: false,
                ..*found
            };
            self.symbols.insert(*name, definition)?;
        }
        Ok(())
    }

    /// The symbols in order of definition.
    #[tactic(auto, using(crate::proofs::Tabled::once))]
    pub fn into_symbols(self, alloc: Global) -> Result<Vec<Symbol>, AllocError>
        ensures value { IfOk result (λ v. v.items ≡ self) }
        ensures names { first_repeated self ≡ None }
    {
        let mut symbols = Vec::with_capacity(alloc, self.symbols.len())?;
        for (name, definition) in self.symbols {
            symbols.push(named(name, definition))?;
        }
        Ok(symbols)
    }
}

/// The symbol of a name with its definition.
fn named(name: Name, definition: Definition) -> Symbol
    ensures { result ≡ joined name definition }
{
    let Definition {
        global,
        section,
        value,
        line,
        col,
    } = definition;
    Symbol {
        name,
        global,
        section,
        value,
        line,
        col,
    }
}
