//! The global symbols of all objects, at their addresses.
ghost use Rattle.std.specs.Prelude.{◌≡◌, ◌∷◌, [], IfOk, flat_map, OnOk};
ghost use Rattle.std.specs.Option.{option_map};
ghost use Rattle.m88_link.specs.Bases.{base_of};
ghost use Rattle.m88_link.specs.Inside.Exports.{repeated_in, taken};
ghost use Rattle.m88_link.specs.Inside.Findings.{EndsAtFault, with_duplicate};
ghost use Rattle.m88_link.specs.Layout.{globals_of};
ghost use Rattle.m88_link.specs.Refusal.{duplicate_fault};
ghost use Rattle.m88_link.specs.Symbols.{exported};

use crate::bases::Placement;
use crate::fault::{LinkFault, LinkKind};
use crate::findings::Findings;
use crate::object::Symbol;
use crate::table::SymbolTable;
use std::alloc::Global;

/// The global symbols of all objects with their values, of each name the first, or the first that repeats a name.
pub fn globals(
    alloc: Global,
    findings: &mut Findings,
    placements: &[Placement],
) -> Result<SymbolTable, LinkFault>
    ensures table { IfOk result (λ table. table ≡ taken [] (flat_map globals_of placements.now)) }
    ensures ends { EndsAtFault findings.old.goes_on
        (option_map duplicate_fault (repeated_in [] (flat_map globals_of placements.now)))
        (findings.new ≡ with_duplicate findings.old
        (option_map duplicate_fault (repeated_in [] (flat_map globals_of placements.now)))) result }
{
    let mut table = SymbolTable::new(alloc);
    for placement in placements {
        export_all(&mut table, findings, placement, placement.symbols())?;
    }
    Ok(table)
}

/// Adds the global ones among symbols of an object to a table.
fn export_all(
    table: &mut SymbolTable,
    findings: &mut Findings,
    placement: &Placement,
    symbols: &[Symbol],
) -> Result<(), LinkFault>
    ensures table { OnOk result
        (table.new ≡ taken table.old (exported (base_of placement.now) symbols.now)) }
    ensures ends { EndsAtFault findings.old.goes_on
        (option_map duplicate_fault
        (repeated_in table.old (exported (base_of placement.now) symbols.now)))
        (findings.new ≡ with_duplicate findings.old (option_map duplicate_fault
        (repeated_in table.old (exported (base_of placement.now) symbols.now)))) result }
{
    for symbol in symbols {
        // No `?`: the proof of this loop isn't found with it.
        match export(table, findings, placement, symbol) {
            Ok(()) => {}
            Err(fault) => return Err(fault),
        }
    }
    Ok(())
}

/// Adds a symbol of an object to a table where it is global.
fn export(
    table: &mut SymbolTable,
    findings: &mut Findings,
    placement: &Placement,
    symbol: &Symbol,
) -> Result<(), LinkFault>
    ensures table { OnOk result
        (table.new ≡ taken table.old (exported (base_of placement.now) (symbol.now ∷ []))) }
    ensures ends { EndsAtFault findings.old.goes_on
        (option_map duplicate_fault
        (repeated_in table.old (exported (base_of placement.now) (symbol.now ∷ []))))
        (findings.new ≡ with_duplicate findings.old (option_map duplicate_fault
        (repeated_in table.old (exported (base_of placement.now) (symbol.now ∷ []))))) result }
{
    if !symbol.global {
        return Ok(());
    }
    match table.get(&symbol.name) {
        Some(earlier) => {
            findings.add_duplicate(LinkFault {
                line: symbol.line,
                col: symbol.col,
                kind: LinkKind::Duplicate {
                    name: symbol.name,
                    first: earlier.line,
                },
            })?;
            table.withdraw(&symbol.name)?;
            Ok(())
        }
        None => {
            table.add(Symbol {
                section: None,
                value: placement.value(symbol.section, symbol.value),
                ..*symbol
            })?;
            Ok(())
        }
    }
}
