//! What names mean, and the uses of names that can't be carried out.
ghost use Rattle.std.specs.Prelude.{◌≡◌, ℕ, IfOk, List, None, Some, if◌then◌else◌};
ghost use Rattle.m88_link.specs.Inside.Findings.{EndsAtFault, with_uses};
ghost use Rattle.m88_link.specs.Inside.Resolved.{is_kept, known_value, use_in, value_alone, value_or_zero};
ghost use Rattle.m88_link.specs.Refusal.{too_far_in, undefined_in};
ghost use Rattle.m88_link.specs.Relocated.{target_of};
ghost use Rattle.m88_link.specs.Sound.{IsPatchIn};
ghost use Rattle.m88_link.specs.Symbols.{first_repeated, joined};

use crate::bases::Placement;
use crate::fault::{LinkFault, LinkKind};
use crate::findings::Findings;
use crate::object::{Definition, Reloc, Symbol};
use crate::patch::{distance, is_in_reach};
use crate::table::SymbolTable;
use m88_base::Name;
use std::alloc::{AllocError, Global};

/// The symbols of an object as a table.
pub fn own_symbols(alloc: Global, symbols: &[Symbol]) -> Result<SymbolTable, AllocError>
    requires { first_repeated symbols.now ≡ None }
    ensures { IfOk result (λ table. table ≡ symbols.now) }
{
    let mut table = SymbolTable::with_room(alloc, symbols.len())?;
    for symbol in symbols {
        table.add(*symbol)?;
    }
    Ok(table)
}

/// What a name means in an object, where that is one thing: its definition there, or else the only global one.
fn meaning(
    globals: &SymbolTable,
    placement: &Placement,
    own: &SymbolTable,
    name: &Name,
) -> Option<u32>
    requires { own.now ≡ placement.now.part.symbols }
    ensures { result ≡ known_value globals.now placement.now name.now }
{
    match own.get(name) {
        Some(found) => Some(placement.value(found.section, found.value)),
        None => match globals.get(name) {
            Some(found) => value_alone(found),
            None => None,
        },
    }
}

/// The value of a global symbol that no other has the name of.
fn value_alone(found: &Definition) -> Option<u32>
    ensures { (name : List ℕ) → result ≡ value_alone (joined name found.now) }
{
    if found.global {
        Some(found.value)
    } else {
        None
    }
}

/// The target of a relocation of an object, the symbol's value plus the addend, where the symbol means
/// one thing.
fn target(
    globals: &SymbolTable,
    placement: &Placement,
    own: &SymbolTable,
    reloc: &Reloc,
) -> Option<u32>
    requires { own.now ≡ placement.now.part.symbols }
    ensures { result ≡ (use_in globals.now placement.now reloc.now).target }
{
    let addend = reloc.addend;
    let value = meaning(globals, placement, own, &reloc.symbol)?;
    Some(value.wrapping_add(addend))
}

/// The target of a relocation of an object where it can be carried out; where it can't, that is a finding, or refused.
pub fn checked_target(
    findings: &mut Findings,
    globals: &SymbolTable,
    placement: &Placement,
    own: &SymbolTable,
    reloc: &Reloc,
) -> Result<Option<u32>, LinkFault>
    requires own { own.now ≡ placement.now.part.symbols }
    requires sound { IsPatchIn placement.now.part.sections reloc.now }
    ensures target { IfOk result (λ target. target
        ≡ if is_kept globals.now placement.now reloc.now
        then Some (target_of (value_or_zero globals.now placement.now) reloc.now) else None) }
    ensures ends { EndsAtFault findings.old.goes_on
        (undefined_in (use_in globals.now placement.now reloc.now))
        (findings.new ≡ with_uses findings.old
        (undefined_in (use_in globals.now placement.now reloc.now))
        (too_far_in (use_in globals.now placement.now reloc.now))) result }
{
    let Some(target) = target(globals, placement, own, reloc) else {
        findings.add_undefined(LinkFault {
            line: reloc.line,
            col: reloc.col,
            kind: LinkKind::Undefined(reloc.symbol),
        })?;
        return Ok(None);
    };
    let at = placement.address(reloc);
    if is_in_reach(reloc.kind, target, at) {
        return Ok(Some(target));
    }
    findings.add_far(LinkFault {
        line: reloc.line,
        col: reloc.col,
        kind: LinkKind::TooFar(distance(target, at).cast_signed()),
    });
    Ok(None)
}
