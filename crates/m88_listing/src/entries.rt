//! The symbols of a unit as they are listed.
ghost use Rattle.std.specs.Prelude.{◌≡◌, ◌++◌, IfOk, OnOk, is_none, is_some};
ghost use Rattle.std.specs.List.{flat_map};
ghost use Rattle.m88_base.specs.Lines.{line_end, text_of_lines};
ghost use Rattle.m88_listing.specs.Entries.{AreInOrder, entries_in, entry_line, entry_of, global_mark, section_mark};
ghost use Rattle.m88_listing.specs.Listing.{entry_lines};

use crate::standing::Standing;
use m88_base::{Name, push_decimal, push_hex8};
use m88_link::Symbol;
use std::alloc::{AllocError, Global};

/// A symbol as it is listed: its value, the number of its section, its name, the name of its module, the line of its
/// definition, and whether other modules see it.
#[derive(Clone, Copy, PartialEq, Eq, Debug)]
pub struct Entry {
    pub value: u32,
    pub section: Option<u32>,
    pub name: Name,
    pub owner: Name,
    pub line: u32,
    pub global: bool,
}

/// A symbol of a module as it is listed.
fn entry_of(standing: &Standing<'_>, symbol: &Symbol) -> Entry
    ensures { result ≡ entry_of standing.now symbol.now }
{
    Entry {
        value: standing.value(symbol),
        section: symbol.section,
        name: symbol.name,
        owner: standing.name(),
        line: symbol.line,
        global: symbol.global,
    }
}

/// Appends the labels of a module.
fn push_labels(entries: &mut Vec<Entry>, standing: &Standing<'_>) -> Result<(), AllocError>
    ensures { OnOk result (entries.new.items
        ≡ entries.old.items ++ entries_in (λ s. is_some s.section) standing.now) }
{
    for symbol in standing.symbols() {
        if symbol.section.is_some() {
            entries.push(entry_of(standing, symbol))?;
        }
    }
    Ok(())
}

/// Appends the names of `.set` of a module.
fn push_numbers(entries: &mut Vec<Entry>, standing: &Standing<'_>) -> Result<(), AllocError>
    ensures { OnOk result (entries.new.items
        ≡ entries.old.items ++ entries_in (λ s. is_none s.section) standing.now) }
{
    for symbol in standing.symbols() {
        if symbol.section.is_none() {
            entries.push(entry_of(standing, symbol))?;
        }
    }
    Ok(())
}

/// The labels of modules, in order of address.
pub(crate) fn labels(alloc: Global, standings: &[Standing<'_>]) -> Result<Vec<Entry>, AllocError>
    ensures { IfOk result (λ v. AreInOrder
        (flat_map (entries_in (λ s. is_some s.section)) standings.now) v.items) }
{
    let mut entries = Vec::new(alloc);
    for standing in standings {
        push_labels(&mut entries, standing)?;
    }
    entries.sort_by_key(|entry| entry.value)?;
    Ok(entries)
}

/// The names of `.set` of modules, in order of definition.
pub(crate) fn numbers(alloc: Global, standings: &[Standing<'_>]) -> Result<Vec<Entry>, AllocError>
    ensures { IfOk result (λ v. v.items
        ≡ flat_map (entries_in (λ s. is_none s.section)) standings.now) }
{
    let mut entries = Vec::new(alloc);
    for standing in standings {
        push_numbers(&mut entries, standing)?;
    }
    Ok(entries)
}

/// Appends the word for the section of a symbol.
fn push_section(text: &mut Vec<u8>, section: Option<u32>) -> Result<(), AllocError>
    ensures { OnOk result (text.new.items ≡ text.old.items ++ section_mark section) }
{
    match section {
        Some(0) => text.extend_from_slice(b" text"),
        Some(1) => text.extend_from_slice(b" data"),
        Some(_) => text.extend_from_slice(b" at"),
        None => Ok(()),
    }
}

/// Appends the mark of a symbol that other modules see.
fn push_global(text: &mut Vec<u8>, global: bool) -> Result<(), AllocError>
    ensures { OnOk result (text.new.items ≡ text.old.items ++ global_mark global) }
{
    if global {
        text.extend_from_slice(b" global")?;
    }
    Ok(())
}

/// Appends the line of a symbol.
fn push_entry(text: &mut Vec<u8>, entry: &Entry) -> Result<(), AllocError>
    ensures { OnOk result
        (text.new.items ≡ text.old.items ++ (entry_line entry.now ++ line_end)) }
{
    push_hex8(text, entry.value)?;
    push_section(text, entry.section)?;
    text.push(b' ')?;
    text.extend_from_slice(entry.name.bytes())?;
    text.push(b' ')?;
    text.extend_from_slice(entry.owner.bytes())?;
    text.push(b' ')?;
    push_decimal(text, u64::from(entry.line))?;
    push_global(text, entry.global)?;
    text.push(b'\n')?;
    Ok(())
}

/// Appends an empty line, a title and the lines of symbols.
pub(crate) fn push_entries(
    text: &mut Vec<u8>,
    title: &[u8],
    entries: &[Entry],
) -> Result<(), AllocError>
    ensures { OnOk result (text.new.items
        ≡ text.old.items ++ text_of_lines (entry_lines title.now entries.now)) }
{
    text.push(b'\n')?;
    text.extend_from_slice(title)?;
    text.push(b'\n')?;
    for entry in entries {
        push_entry(text, entry)?;
    }
    Ok(())
}
