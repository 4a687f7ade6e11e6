//! The operands of an instruction's text.
ghost use Rattle.std.specs.Prelude.{◌≡◌, ◌+◌, ◌^◌, ◌≤◌, ◌++◌, ℕ, List, decimal, length, unsigned_abs};
ghost use Rattle.m88_isa.specs.Instr.{FitsWords};
ghost use Rattle.m88_disasm.specs.Text.{condition, control, field, register_name, scaled, target_operand};

use crate::put::{
    InstrText, MOST_TEXT, put_condition, put_control, put_field, put_number, put_register,
    put_scaled, put_target,
};
use m88_base::Reg;
use m88_isa::BitOp;

/// What can be an operand: its text has at most eleven bytes.
pub trait Operand {
    // What is written.
    ghost written: { Self → List ℕ };

    /// Appends it.
    fn put(self, text: &mut InstrText)
        requires { length text.old.bytes + 11 ≤ MOST_TEXT }
        ensures bytes { text.new.bytes ≡ text.old.bytes ++ written self }
        ensures room { length text.new.bytes ≤ length text.old.bytes + 11 };
}

/// A register and the one that is scaled.
#[derive(Clone, Copy)]
pub struct Scaled(pub Reg, pub Reg);

/// A control register, of the floating-point unit or not.
#[derive(Clone, Copy)]
pub struct Control {
    pub float: bool,
    pub cr: u8,
}

/// A bit field.
#[derive(Clone, Copy)]
pub struct Field {
    pub op: BitOp,
    pub width: u8,
    pub offset: u8,
}

/// The mask of a condition.
#[derive(Clone, Copy)]
pub struct Condition(pub u8);

/// The target that is so many words on or back.
#[derive(Clone, Copy)]
pub struct Target {
    pub words: i32,
    pub ghost near: { unsigned_abs words ≤ 2 ^ 25 },
}

impl Target {
    /// The target of a branch by so many words.
    #[tactic(auto, using(crate::proofs::Operands::is_near))]
    pub fn new(words: i32) -> Target
        requires { FitsWords 25 words }
        ensures { result.words ≡ words }
    {
        Target { words }
    }
}

impl Operand for Reg {
    ghost written = { register_name };

    fn put(self, text: &mut InstrText) {
        put_register(text, self);
    }
}

impl Operand for u8 {
    ghost written = { decimal };

    fn put(self, text: &mut InstrText) {
        put_number(text, self);
    }
}

impl Operand for u16 {
    ghost written = { decimal };

    fn put(self, text: &mut InstrText) {
        put_number(text, self);
    }
}

impl Operand for Scaled {
    ghost written = { λ s. scaled s.0 s.1 };

    fn put(self, text: &mut InstrText) {
        put_scaled(text, self.0, self.1);
    }
}

impl Operand for Control {
    ghost written = { λ c. control c.float c.cr };

    fn put(self, text: &mut InstrText) {
        put_control(text, self.float, self.cr);
    }
}

impl Operand for Field {
    ghost written = { λ f. field f.op f.width f.offset };

    fn put(self, text: &mut InstrText) {
        put_field(text, self.op, self.width, self.offset);
    }
}

impl Operand for Condition {
    ghost written = { λ c. condition c.0 };

    fn put(self, text: &mut InstrText) {
        put_condition(text, self.0);
    }
}

impl Operand for Target {
    ghost written = { λ t. target_operand t.words };

    fn put(self, text: &mut InstrText) {
        put_target(text, self.words);
    }
}
