//! The assembly language: a line as tokens, a source as its unit of modules and statements, and the
//! one first fault of a source that has no unit.
#![tactic(auto)]

// The tokens of a line.
mod lexemes;
mod scan;
mod token;

// Operands, from the tokens of a line.
mod lists;
mod names;
mod operand;
mod operands;
mod parser;
mod slots;

// Statements.
mod directive;
mod forms;
mod shape;
mod statement;

// The unit of a source, and why it has none.
mod draft;
mod fault;
mod source;
mod unit;

pub use fault::{ParseFault, ParseKind};
pub use lexemes::tokens;
pub use source::parse;
pub use token::{Token, TokenKind};
pub use unit::{Body, Module, Statement, Unit, Value};
