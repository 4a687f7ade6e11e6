//! The instruction of a word.

ghost use Rattle.std.specs.Prelude.{◌≡◌, IfOk};
ghost use Rattle.m88_isa.specs.Word.{IsWord, HasOneReading};
ghost use Rattle.m88_isa.specs.declared.instr.Instr.{Instr as Instruction};
ghost use Rattle.m88_codec.specs.Inside.Whole.{leaves_no_field_unused};

use super::candidate::candidate;
use super::encoder::encode;
use m88_isa::{Instr, is_valid};
use thiserror::Error;

/// The word is outside the word table.
#[derive(Clone, Copy, PartialEq, Eq, Debug, Error)]
#[error("no instruction has this word")]
pub struct BadWord;

/// The instruction of a word. A word with a bit set in a field that its form leaves unused is no
/// instruction in this project's profile.
pub fn decode(word: u32) -> Result<Instr, BadWord>
    ensures found { IfOk result (λ i. IsWord i word) }
    ensures only { (i : Instruction) → IsWord i word → result ≡ Ok i }
    ensures one_reading { HasOneReading word }
{
    let instr = candidate(word);
    if leaves_no_field_unused(word >> 26) || (is_valid(&instr) && encode(&instr) == word) {
        Ok(instr)
    } else {
        Err(BadWord)
    }
}

/// Whether each word with these six opening bits has an instruction: no field of its form is left unused.
fn leaves_no_field_unused(head: u32) -> bool
    ensures { result ≡ leaves_no_field_unused head }
{
    matches!(head, 0..=11 | 16..=31 | 33..=39 | 48..=55)
}
