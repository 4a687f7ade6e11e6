//! The instruction unit's pointers: the instruction retired last (XIP), the next one (NIP) and the one
//! that is being fetched (FIP), with the marks that exception processing saves and restores.
#![tactic(auto)]

mod instr_unit;

pub use instr_unit::InstrUnit;
pub use m88_base::Slot;
