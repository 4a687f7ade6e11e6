//! The instructions of the MC88100: their forms and fields, the word of each one, and what each one
//! does to registers, carry, memory and the flow of the program.
//! The definitions in `specs/` are the ones that every other crate of the workspace cites.
#![tactic(auto)]

// what instructions there are
mod instr;
mod mnemonic;

// how the instruction unit treats them
mod operands;

// what they do
mod address;
mod compute;
mod effect;
mod fields;
mod flow;
mod lanes;
mod memory;
mod planned;
mod vector;

// what the data unit keeps of an access
mod triples;

// what a program asks of the monitor
mod monitor;

pub use address::indexed_address;
pub use effect::{outline, plan};
pub use flow::words_away;
pub use instr::{BitOp, ImmOp, Instr, LdaSize, MemOp, RegOp, is_valid};
pub use lanes::{datum, merge};
pub use memory::{accesses_at, no_accesses, size_of};
pub use mnemonic::Mnemonic;
pub use monitor::{
    EXIT_SERVICE, MONITOR_TRAP, OUTPUT_REGISTER, PUT_SERVICE, SERVICE_REGISTER, Service,
};
pub use operands::{access_count, is_flow, register_after, uses, waits_for_empty, writes};
pub use planned::{Access, Accesses, Effect, Outline, Plan};
pub use triples::{access_in, finished, is_valid_triple, triple_of};
pub use vector::{
    BAD_DIVISION, DATA_ACCESS, FIRST_USER_VECTOR, INSTRUCTION_ACCESS, MISALIGNED, OUT_OF_BOUNDS,
    OVERFLOW, PRIVILEGE, UNIMPLEMENTED,
};
