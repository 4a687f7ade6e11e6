//! Objects: what a module is assembled into, and what the linker takes.

use m88_base::{Kind, Listed, Name};

/// What a module is assembled into: its sections, of which section 0 is text and section 1 is data,
/// the symbols that it defines, in order of definition, and the words that wait for a symbol.
#[derive(Drop, Debug)]
pub struct Object {
    /// The module's name.
    pub name: Name,
    /// The sections; a symbol or a relocation names one by its index.
    pub sections: Listed<Section>,
    /// The symbols that the module defines.
    pub symbols: Listed<Symbol>,
    /// The relocations, in the order in which they are carried out.
    pub relocs: Listed<Reloc>,
}

/// Bytes that stand one after the other.
#[derive(Drop, Debug)]
pub struct Section {
    /// Where the bytes stand.
    pub place: Place,
    /// The bytes, with the fields that wait for a symbol as the relocations find them.
    pub bytes: Listed<u8>,
    /// The line that opened the section, from 1.
    pub line: u32,
}

/// Where the bytes of a section stand in the image.
#[derive(Clone, Copy, PartialEq, Eq, Debug)]
pub enum Place {
    /// Among the text of all objects, from 0x00001000 on.
    Text,
    /// Among the data of all objects, from the least multiple of 4096 on that isn't below the end of all
    /// text.
    DataSection,
    /// From this address on.
    At(u32),
}

/// A name with a value.
#[derive(Clone, Copy, PartialEq, Eq, Debug)]
pub struct Symbol {
    /// The name.
    pub name: Name,
    /// Whether other objects see it.
    pub global: bool,
    /// The index of the section that the value is an offset in; a symbol without one is absolute.
    pub section: Option<u32>,
    /// An offset in bytes from the section's start, or the number of an absolute symbol.
    pub value: u32,
    /// The line of the definition, from 1.
    pub line: u32,
    /// The column of the definition, from 1.
    pub col: u32,
}

/// What a symbol has beside its name.
#[derive(Clone, Copy, Debug)]
pub struct Definition {
    /// Whether other objects see the symbol.
    pub global: bool,
    /// The index of the section that the value is an offset in; a symbol without one is absolute.
    pub section: Option<u32>,
    /// An offset in bytes from the section's start, or the number of an absolute symbol.
    pub value: u32,
    /// The line of the definition, from 1.
    pub line: u32,
    /// The column of the definition, from 1.
    pub col: u32,
}

/// A word whose field waits for the value of a symbol plus an addend.
#[derive(Clone, Copy, PartialEq, Eq, Debug)]
pub struct Reloc {
    /// The field, and what it takes of the value.
    pub kind: Kind,
    /// The index of the section that has the word.
    pub section: u32,
    /// The offset of the word's first byte in the section.
    pub offset: u32,
    /// The symbol.
    pub symbol: Name,
    /// What is added to the symbol's value, modulo 2^32.
    pub addend: u32,
    /// The line of the use, from 1.
    pub line: u32,
    /// The column of the symbol in that line, from 1.
    pub col: u32,
}
