//! The parts of an instruction's text.
ghost use Rattle.std.specs.Prelude.{◌≡◌, ◌+◌, ◌^◌, ◌≤◌, ◌++◌, codes, length, unsigned_abs};
ghost use Rattle.m88_isa.specs.Mnemonic.{text_of};
ghost use Rattle.m88_disasm.specs.Text.{condition, control, field, register_name, scaled, target_operand};

use arrayvec::ArrayString;
use itoa::{Buffer, Integer};
use m88_base::Reg;
use m88_isa::{BitOp, Mnemonic};

/// The room for the text of an instruction, in bytes.
pub const MOST_TEXT: usize = 48;

/// The text of an instruction, or what there is of it so far.
pub type InstrText = ArrayString<MOST_TEXT>;

/// A mnemonic and the blank behind it.
#[tactic(auto, using(crate::proofs::Names::name_short))]
pub fn begun(mnemonic: Mnemonic) -> InstrText
    ensures bytes { result.bytes ≡ text_of mnemonic ++ codes " " }
    ensures room { length result.bytes ≤ 12 }
{
    let mut text = InstrText::new();
    text.push_str(mnemonic.text());
    text.push_str(" ");
    text
}

/// Appends a number.
pub fn put_number<N: Integer>(text: &mut InstrText, n: N)
    requires { length text.old.bytes + N.MAX_STR_LEN ≤ MOST_TEXT }
    ensures bytes { text.new.bytes ≡ text.old.bytes ++ N.text n }
    ensures room { length text.new.bytes ≤ length text.old.bytes + N.MAX_STR_LEN }
{
    let mut buffer = Buffer::new();
    text.push_str(buffer.format(n));
}

/// Appends a register.
pub fn put_register(text: &mut InstrText, r: Reg)
    requires { length text.old.bytes + 4 ≤ MOST_TEXT }
    ensures bytes { text.new.bytes ≡ text.old.bytes ++ register_name r }
    ensures room { length text.new.bytes ≤ length text.old.bytes + 4 }
{
    text.push_str("r");
    put_number(text, r.number() as u8);
}

/// Appends a register and the one that is scaled.
pub fn put_scaled(text: &mut InstrText, s1: Reg, s2: Reg)
    requires { length text.old.bytes + 10 ≤ MOST_TEXT }
    ensures bytes { text.new.bytes ≡ text.old.bytes ++ scaled s1 s2 }
    ensures room { length text.new.bytes ≤ length text.old.bytes + 10 }
{
    put_register(text, s1);
    text.push_str("[");
    put_register(text, s2);
    text.push_str("]");
}

/// Appends a control register.
pub fn put_control(text: &mut InstrText, float: bool, cr: u8)
    requires { length text.old.bytes + 6 ≤ MOST_TEXT }
    ensures bytes { text.new.bytes ≡ text.old.bytes ++ control float cr }
    ensures room { length text.new.bytes ≤ length text.old.bytes + 6 }
{
    text.push_str(if float { "fcr" } else { "cr" });
    put_number(text, cr);
}

/// Appends a bit field.
pub fn put_field(text: &mut InstrText, op: BitOp, width: u8, offset: u8)
    requires { length text.old.bytes + 8 ≤ MOST_TEXT }
    ensures bytes { text.new.bytes ≡ text.old.bytes ++ field op width offset }
    ensures room { length text.new.bytes ≤ length text.old.bytes + 8 }
{
    if op != BitOp::Rot {
        put_number(text, width);
    }
    text.push_str("<");
    put_number(text, offset);
    text.push_str(">");
}

/// Appends the mask of a condition.
#[tactic(auto, unfolding(crate::specs::Text::condition))]
pub fn put_condition(text: &mut InstrText, mask: u8)
    requires { length text.old.bytes + 3 ≤ MOST_TEXT }
    ensures bytes { text.new.bytes ≡ text.old.bytes ++ condition mask }
    ensures room { length text.new.bytes ≤ length text.old.bytes + 3 }
{
    match mask {
        1 => text.push_str("gt0"),
        2 => text.push_str("eq0"),
        3 => text.push_str("ge0"),
        12 => text.push_str("lt0"),
        13 => text.push_str("ne0"),
        14 => text.push_str("le0"),
        _ => put_number(text, mask),
    }
}

/// Appends the target that is so many words on or back.
#[tactic(auto, using(crate::proofs::Operands::nine_digits))]
pub fn put_target(text: &mut InstrText, words: i32)
    requires near { unsigned_abs words ≤ 2 ^ 25 }
    requires room { length text.old.bytes + 11 ≤ MOST_TEXT }
    ensures bytes { text.new.bytes ≡ text.old.bytes ++ target_operand words }
    ensures room { length text.new.bytes ≤ length text.old.bytes + 11 }
{
    text.push_str(if words < 0 { ".-" } else { ".+" });
    let mut buffer = Buffer::new();
    text.push_str(buffer.format(4 * words.unsigned_abs()));
}
