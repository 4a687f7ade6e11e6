//! A source as modules of statements.
use m88_base::{Fixup, Listed, Name};
use m88_isa::Instr;

/// A whole source: its modules, one at least, in order.
#[derive(Drop, Debug)]
pub struct Unit {
    pub modules: Listed<Module>,
}

/// A module: its name, the line of its `.module` (1 where there is none), and its statements in order.
#[derive(Drop, Debug)]
pub struct Module {
    pub name: Name,
    pub line: u32,
    pub statements: Listed<Statement>,
}

/// A statement: its line, its label with the label's column, the column of its operation (of its label
/// where it has no operation), and what it says.
#[derive(Drop, Debug)]
pub struct Statement {
    pub line: u32,
    pub label: Option<(Name, u32)>,
    pub col: u32,
    pub body: Body,
}

/// What a statement says: nothing beside its label, a directive, or an instruction with the fixup of
/// its one field that waits for a symbol.
#[derive(Drop, Debug)]
pub enum Body {
    Empty,
    Text,
    DataSection,
    At(u32),
    Word(Listed<Value>),
    Half(Listed<u16>),
    Byte(Listed<u8>),
    Ascii(Listed<u8>),
    Zero(u32),
    Align(u32),
    Global(Name),
    /// The column is that of the name.
    Set { name: Name, col: u32, value: u32 },
    Code(Instr, Option<Fixup>),
}

/// A word of `.word`: a number modulo 2^32, or a symbol plus an addend.
#[derive(Drop, Debug)]
pub enum Value {
    Number(u32),
    Symbol(Fixup),
}
