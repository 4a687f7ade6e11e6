//! Whether an object is sound.
ghost use Rattle.std.specs.Prelude.{◌≡◌, ◌↔◌, None, IsTrue, option_copied};
ghost use Rattle.m88_link.specs.Sound.{AreSections, HasRoom, IsDefinedIn, IsPatchIn, IsGlobalIfStart, IsSound, origin};
ghost use Rattle.m88_link.specs.Symbols.{first_repeated, symbol_of};

use crate::object::{Object, Place, Reloc, Section, Symbol};
use m88_base::{MOST_BYTES, Name};

/// Whether an object is sound. It has text and data as sections 0 and 1, and each other section has
/// an address of its own; a section has at most 1,048,576 bytes, none past 0xFFFFFFFF; the sections of
/// symbols and relocations exist, offsets lie in them, and each patched word at a multiple of 4; no
/// two symbols have one name, and `_start` is global. It takes no memory; its time grows with the
/// square of the number of symbols.
pub fn is_sound(object: &Object) -> bool
    ensures { IsTrue result ↔ IsSound object.now }
{
    let sections = object.sections.as_slice();
    let symbols = object.symbols.as_slice();
    are_sections(sections)
        && sections.iter().all(|section| has_room(section))
        && symbols.iter().all(|symbol| is_defined_in(sections, symbol))
        && object
            .relocs
            .as_slice()
            .iter()
            .all(|reloc| is_patch_in(sections, reloc))
        && names_differ(symbols)
        && symbols.iter().all(|symbol| is_global_if_start(symbol))
}

/// Whether section 0 is text, section 1 is data, and each other one has an address of its own.
fn are_sections(sections: &[Section]) -> bool
    ensures { IsTrue result ↔ AreSections sections.now }
{
    match sections {
        [text, datas, others @ ..] => {
            text.place == Place::Text
                && datas.place == Place::DataSection
                && others
                    .iter()
                    .all(|section| matches!(section.place, Place::At(_)))
        }
        _ => false,
    }
}

/// The number from which alignment counts in a section.
fn origin(place: Place) -> u32
    ensures { result ≡ origin place }
{
    match place {
        Place::Text | Place::DataSection => 0,
        Place::At(at) => at,
    }
}

/// Whether a section has at most 1,048,576 bytes, none past 0xFFFFFFFF.
pub fn has_room(section: &Section) -> bool
    ensures { IsTrue result ↔ HasRoom section.now }
{
    let len = section.bytes.as_slice().len();
    len <= MOST_BYTES && origin(section.place) as usize + len <= 1 << 32
}

/// Whether the section of a symbol exists and the symbol's offset is at most its length.
pub fn is_defined_in(sections: &[Section], symbol: &Symbol) -> bool
    ensures { IsTrue result ↔ IsDefinedIn sections.now symbol.now }
{
    let Some(index) = symbol.section else {
        return true;
    };
    match sections.get(index as usize) {
        Some(section) => symbol.value as usize <= section.bytes.as_slice().len(),
        None => false,
    }
}

/// Whether the section of a relocation exists and the word lies in it, at a multiple of 4.
pub fn is_patch_in(sections: &[Section], reloc: &Reloc) -> bool
    ensures { IsTrue result ↔ IsPatchIn sections.now reloc.now }
{
    let Some(section) = sections.get(reloc.section as usize) else {
        return false;
    };
    let offset = reloc.offset as usize;
    offset + 4 <= section.bytes.as_slice().len()
        && (origin(section.place) as usize + offset) % 4 == 0
}

/// Whether no two symbols have one name.
#[tactic(auto, using(crate::proofs::Repeated::repeated_at))]
fn names_differ(symbols: &[Symbol]) -> bool
    ensures { IsTrue result ↔ (first_repeated symbols.now ≡ None) }
{
    for (index, symbol) in symbols.iter().enumerate() {
        if find_named(&symbols[..index], &symbol.name).is_some() {
            return false;
        }
    }
    true
}

/// The first symbol that has a name.
fn find_named<'a>(symbols: &'a [Symbol], name: &Name) -> Option<&'a Symbol>
    ensures { option_copied result ≡ symbol_of symbols.now name.now }
{
    symbols.iter().find(|symbol| *name == symbol.name)
}

/// Whether a symbol is global or isn't `_start`.
pub fn is_global_if_start(symbol: &Symbol) -> bool
    ensures { IsTrue result ↔ IsGlobalIfStart symbol.now }
{
    symbol.global || symbol.name.bytes() != b"_start".as_slice()
}
