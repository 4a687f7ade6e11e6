//! Objects of the assembler and the linker: their sections, symbols and relocations, what makes them sound, their text,
//! where they stand, and the image that a list of them is linked into.
#![tactic(auto)]

// What objects are, and what is told of them.
mod fault;
mod object;
mod object_fault;
mod sound;
mod table;

// Parts of linking.
mod bases;
mod exports;
mod findings;
mod linking;
mod overlap;
mod patch;
mod placing;
mod resolve;

// Object texts, written and read.
mod object_draft;
mod object_lines;
mod progress;
mod read;
mod row;
mod row_text;
mod text;
mod walk;
mod words;

pub use bases::{Placement, stand};
pub use fault::{LinkFault, LinkKind};
pub use linking::{link, link_forced};
pub use object::{Definition, Object, Place, Reloc, Section, Symbol};
pub use object_fault::ObjectFault;
pub use read::read_objects;
pub use sound::is_sound;
pub use table::SymbolTable;
pub use text::object_text;
