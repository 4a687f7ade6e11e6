//! Objects gone through part by part, to the first part by which one of them isn't sound.
ghost use Rattle.std.specs.Prelude.{◌≡◌, ◌+◌, ◌<◌, ◌^◌, ◌↔◌, All, IfOk, IsTrue, None, length};
ghost use Rattle.m88_link.specs.ObjectRead.{AreSoundSymbols};
ghost use Rattle.m88_link.specs.Sound.{HasRoom, IsDefinedIn, IsGlobalIfStart};
ghost use Rattle.m88_link.specs.Symbols.{symbol_of};
ghost use Rattle.m88_link.specs.Inside.Walked.{ArePatches, AreSoundParts, HaveRoom, IsFoundObject, IsFoundPart, IsFoundReloc, IsFoundSection, IsFoundSymbol, Walks, object_count, objects_count, section_count, sections_count};

use crate::object::{Object, Reloc, Section, Symbol};
use crate::sound::{has_room, is_defined_in, is_global_if_start, is_patch_in};
use crate::table::SymbolTable;
use crate::text::LINE_BYTES;
use std::alloc::{AllocError, Global};

/// What going through parts of an object text comes to.
#[derive(Clone, Copy)]
pub enum Walked {
    /// All parts are sound; the number of their lines.
    Sound(usize),
    /// The number of lines before the first part by which its object isn't sound.
    Unsound(usize),
}

/// The number of lines of a section: its head and its byte lines.
fn section_count(section: &Section) -> usize
    requires { HasRoom section.now }
    ensures { result ≡ section_count section.now }
{
    1 + section.bytes.as_slice().len().div_ceil(LINE_BYTES)
}

/// Goes through sections.
fn walk_sections(sections: &[Section]) -> Walked
    requires { sections_count sections.now < 2 ^ 31 }
    ensures { Walks result (λ n. HaveRoom sections.now × (n ≡ sections_count sections.now))
        (IsFoundSection sections.now) }
{
    let mut lines = 0;
    for section in sections {
        if !has_room(section) {
            return Walked::Unsound(lines);
        }
        lines += section_count(section);
    }
    Walked::Sound(lines)
}

/// Whether a symbol is sound behind others.
fn is_sound_behind(names: &SymbolTable, sections: &[Section], symbol: &Symbol) -> bool
    ensures { IsTrue result ↔ (IsDefinedIn sections.now symbol.now
        × (symbol_of names.now symbol.now.name ≡ None) × IsGlobalIfStart symbol.now) }
{
    is_defined_in(sections, symbol)
        && names.get(&symbol.name).is_none()
        && is_global_if_start(symbol)
}

/// Goes through symbols.
fn walk_symbols(
    alloc: Global,
    sections: &[Section],
    symbols: &[Symbol],
) -> Result<Walked, AllocError>
    ensures { IfOk result (λ w. Walks w
        (λ n. AreSoundSymbols sections.now symbols.now × (n ≡ length symbols.now))
        (IsFoundSymbol sections.now symbols.now)) }
{
    let mut names = SymbolTable::new(alloc);
    for (index, symbol) in symbols.iter().enumerate() {
        if !is_sound_behind(&names, sections, symbol) {
            return Ok(Walked::Unsound(index));
        }
        names.add(*symbol)?;
    }
    Ok(Walked::Sound(symbols.len()))
}

/// Goes through relocations.
fn walk_relocs(sections: &[Section], relocs: &[Reloc]) -> Walked
    ensures { Walks result (λ n. ArePatches sections.now relocs.now × (n ≡ length relocs.now))
        (IsFoundReloc sections.now relocs.now) }
{
    for (index, reloc) in relocs.iter().enumerate() {
        if !is_patch_in(sections, reloc) {
            return Walked::Unsound(index);
        }
    }
    Walked::Sound(relocs.len())
}

/// Goes through the parts of an object.
fn walk_object(alloc: Global, object: &Object) -> Result<Walked, AllocError>
    requires { object_count object.now < 2 ^ 31 }
    ensures { IfOk result (λ w. Walks w
        (λ n. AreSoundParts object.now × (n ≡ object_count object.now))
        (IsFoundPart object.now)) }
{
    let sections = object.sections.as_slice();
    let section_lines = match walk_sections(sections) {
        Walked::Sound(lines) => lines,
        Walked::Unsound(lines) => return Ok(Walked::Unsound(1 + lines)),
    };
    let symbol_lines = match walk_symbols(alloc, sections, object.symbols.as_slice())? {
        Walked::Sound(lines) => lines,
        Walked::Unsound(lines) => return Ok(Walked::Unsound(1 + section_lines + lines)),
    };
    let before = 1 + section_lines + symbol_lines;
    match walk_relocs(sections, object.relocs.as_slice()) {
        Walked::Sound(lines) => Ok(Walked::Sound(before + lines + 1)),
        Walked::Unsound(lines) => Ok(Walked::Unsound(before + lines)),
    }
}

/// Goes through objects.
pub fn walk_objects(alloc: Global, objects: &[Object]) -> Result<Walked, AllocError>
    requires { objects_count objects.now < 2 ^ 31 }
    ensures { IfOk result (λ w. Walks w
        (λ n. All AreSoundParts objects.now × (n ≡ objects_count objects.now))
        (IsFoundObject objects.now)) }
{
    let mut lines = 0;
    for object in objects {
        match walk_object(alloc, object)? {
            Walked::Sound(more) => lines += more,
            Walked::Unsound(within) => return Ok(Walked::Unsound(lines + within)),
        }
    }
    Ok(Walked::Sound(lines))
}
