//! What a line of an object text says.

use crate::object::{Place, Reloc, Symbol};
use m88_base::Name;

/// What the line that opens a section says: where its bytes stand, how many there are, and the line
/// of the source that opened it.
#[derive(Clone, Copy)]
pub struct SectionHead {
    /// Where the bytes stand.
    pub place: Place,
    /// How many there are.
    pub len: u32,
    /// The line of the source.
    pub line: u32,
}

/// What a line says that gives no bytes.
#[derive(Clone, Copy)]
pub enum Row {
    /// An object of this name begins.
    Begin(Name),
    /// A section begins.
    Head(SectionHead),
    /// A symbol is defined.
    Define(Symbol),
    /// A relocation.
    Patch(Reloc),
    /// The object ends.
    End,
}

/// The word that begins a line that gives no bytes, but for `end`.
#[derive(Clone, Copy)]
pub enum Keyword {
    /// `object`: an object begins.
    Object,
    /// `text`: its section 0 begins.
    Text,
    /// `data`: its section 1 begins.
    Data,
    /// `at`: a section with an address begins.
    At,
    /// `symbol`: a symbol is defined.
    Symbol,
    /// `reloc`: a relocation.
    Reloc,
}
