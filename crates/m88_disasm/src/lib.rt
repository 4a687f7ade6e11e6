//! Disassembly: the text of an instruction, and the listing of an image.
//! Both are written in the assembly language, as it reads them.
//! The texts and the listing are definitions in `specs/`.
#![tactic(auto)]

mod lister;
mod mnemonics;
mod operand;
mod put;
mod text;

pub use lister::{listing, push_byte, push_line, push_place, push_start};
pub use mnemonics::{of_branch, of_branch_bit, of_branch_cond};
pub use operand::{Condition, Operand};
pub use put::InstrText;
pub use text::{alone, text_of, with_two};
