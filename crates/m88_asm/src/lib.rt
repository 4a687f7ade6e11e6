//! The assembler: the objects of a unit, and how many bytes each of its statements gives.
#![tactic(auto)]

// The object of a module, statement by statement.
mod assembly;
mod exports;
mod fault;
mod filling;
mod growing;

// The objects and the image of a unit.
mod image;
mod objects;

// What a source is made into, or its refusal.
mod source_fault;
mod sources;

pub use fault::{AsmFault, AsmKind, UnitFault};
pub use filling::length_at;
pub use image::image_of;
pub use objects::assemble;
pub use source_fault::unlinked;
pub use sources::{image_of_source, objects_of_source};
