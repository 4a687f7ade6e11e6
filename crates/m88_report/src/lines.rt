//! The lines of a report, a call for each kind. Each appends to a text, and where memory runs out, some of the line may
//! be in it.

ghost use Rattle.std.specs.Prelude.{◌≡◌, ◌++◌, OnOk};
ghost use Rattle.std.specs.List.{enumerate_from, flat_map};
ghost use Rattle.m88_event.specs.EndText.{run_end_line};
ghost use Rattle.m88_report.specs.Report.{carry_line, count_line, fault_lines, named_word, out_line, out_text, record_lines, register_line, register_lines, register_text, status_line, triple_line, word_line};

use m88_base::{Triple, push_decimal, push_hex2, push_hex8};
use m88_event::{End, Record};
use std::alloc::AllocError;

/// Appends the line `end ..`: how a run ended.
pub fn push_end(text: &mut Vec<u8>, end: End) -> Result<(), AllocError>
    ensures { OnOk result (text.new.items ≡ text.old.items ++ run_end_line end) }
{
    let words = end.to_string(*text.allocator())?;
    text.extend_from_slice(b"end ")?;
    text.extend_from_slice(words.as_bytes())?;
    text.push(b'\n')?;
    Ok(())
}

/// Appends a line `NAME N` with a count, in decimal.
pub fn push_count(text: &mut Vec<u8>, name: &[u8], n: u64) -> Result<(), AllocError>
    ensures { OnOk result (text.new.items ≡ text.old.items ++ count_line name.now n) }
{
    text.extend_from_slice(name)?;
    text.push(b' ')?;
    push_decimal(text, n)?;
    text.push(b'\n')?;
    Ok(())
}

/// Appends the lines `r0`, `r8`, `r16` and `r24` of the values of r0 to r31, 32 bits each. A register without a value,
/// which waits for a load, stands as `--------`.
pub fn push_registers(text: &mut Vec<u8>, registers: &[Option<u32>; 32]) -> Result<(), AllocError>
    ensures { OnOk result (text.new.items ≡ text.old.items ++ register_lines registers.now) }
{
    push_register_line(text, b"r0", &registers[..8])?;
    push_register_line(text, b"r8", &registers[8..16])?;
    push_register_line(text, b"r16", &registers[16..24])?;
    push_register_line(text, b"r24", &registers[24..])
}

/// Appends a line of registers.
fn push_register_line(
    text: &mut Vec<u8>,
    name: &[u8],
    registers: &[Option<u32>],
) -> Result<(), AllocError>
    ensures { OnOk result (text.new.items ≡ text.old.items
        ++ register_line name.now registers.now) }
{
    text.extend_from_slice(name)?;
    for register in registers {
        push_register(text, *register)?;
    }
    text.push(b'\n')?;
    Ok(())
}

/// Appends a register in its line.
fn push_register(text: &mut Vec<u8>, register: Option<u32>) -> Result<(), AllocError>
    ensures { OnOk result (text.new.items ≡ text.old.items ++ register_text register) }
{
    text.push(b' ')?;
    match register {
        Some(value) => push_hex8(text, value),
        None => text.extend_from_slice(b"--------"),
    }
}

/// Appends the line `carry 0` or `carry 1`.
pub fn push_carry(text: &mut Vec<u8>, carry: bool) -> Result<(), AllocError>
    ensures { OnOk result (text.new.items ≡ text.old.items ++ carry_line carry) }
{
    text.extend_from_slice(b"carry ")?;
    text.push(if carry { b'1' } else { b'0' })?;
    text.push(b'\n')?;
    Ok(())
}

/// Appends the line `out ..` of an output.
pub(crate) fn push_output(text: &mut Vec<u8>, out: &[u8]) -> Result<(), AllocError>
    ensures { OnOk result (text.new.items ≡ text.old.items ++ out_line out.now) }
{
    text.extend_from_slice(b"out ")?;
    push_bytes(text, out)?;
    text.push(b'\n')?;
    Ok(())
}

/// Appends the bytes of an output, or a `-` where there are none.
fn push_bytes(text: &mut Vec<u8>, out: &[u8]) -> Result<(), AllocError>
    ensures { OnOk result (text.new.items ≡ text.old.items ++ out_text out.now) }
{
    if out.is_empty() {
        return text.extend_from_slice(b"-");
    }
    for byte in out {
        push_hex2(text, *byte)?;
    }
    Ok(())
}

/// Appends the line `mem ADDRESS WORD` of a word of data memory, which stands at a byte address.
pub fn push_word(text: &mut Vec<u8>, address: u32, word: u32) -> Result<(), AllocError>
    ensures { OnOk result (text.new.items ≡ text.old.items ++ word_line (address, word)) }
{
    text.extend_from_slice(b"mem ")?;
    push_hex8(text, address)?;
    text.push(b' ')?;
    push_hex8(text, word)?;
    text.push(b'\n')?;
    Ok(())
}

/// Appends a line for each word of memory, with its address.
pub fn push_words(text: &mut Vec<u8>, words: &[(u32, u32)]) -> Result<(), AllocError>
    ensures { OnOk result (text.new.items ≡ text.old.items ++ flat_map word_line words.now) }
{
    for (address, word) in words {
        push_word(text, *address, *word)?;
    }
    Ok(())
}

/// Appends the lines of a data fault with its number, from 1.
#[tactic(auto, unfolding(crate::specs::Report::fault_lines))]
pub(crate) fn push_fault(text: &mut Vec<u8>, number: u64, fault: &Record) -> Result<(), AllocError>
    ensures { OnOk result (text.new.items ≡ text.old.items ++ fault_lines (number, fault.now)) }
{
    text.extend_from_slice(b"fault ")?;
    push_decimal(text, number)?;
    text.extend_from_slice(b" event ")?;
    push_decimal(text, fault.event)?;
    text.push(b'\n')?;
    push_record(text, fault)
}

/// Appends the four lines of the control registers that a data fault leaves: `epsr`, and the transactions `t0`, the
/// oldest, to `t2` ("Exception Processing": data access exception).
pub fn push_record(text: &mut Vec<u8>, fault: &Record) -> Result<(), AllocError>
    ensures { OnOk result (text.new.items ≡ text.old.items ++ record_lines fault.now) }
{
    push_status(text, fault)?;
    push_triples(text, &fault.triples)
}

/// Appends the line of the processor's status, the three instruction pointers and the waiting registers.
#[tactic(auto, unfolding(crate::specs::Report::status_line))]
fn push_status(text: &mut Vec<u8>, fault: &Record) -> Result<(), AllocError>
    ensures { OnOk result (text.new.items ≡ text.old.items ++ status_line fault.now) }
{
    push_named(text, b"epsr", fault.epsr)?;
    push_named(text, b" sxip", fault.sxip)?;
    push_named(text, b" snip", fault.snip)?;
    push_named(text, b" sfip", fault.sfip)?;
    push_named(text, b" ssbr", fault.ssbr)?;
    text.push(b'\n')?;
    Ok(())
}

/// Appends a word of 32 bits behind its name and a blank, in eight hexadecimal digits: a part of a line.
pub fn push_named(text: &mut Vec<u8>, name: &[u8], word: u32) -> Result<(), AllocError>
    ensures { OnOk result (text.new.items ≡ text.old.items ++ named_word name.now word) }
{
    text.extend_from_slice(name)?;
    text.push(b' ')?;
    push_hex8(text, word)
}

/// Appends the lines of triples, from `t0` on.
#[tactic(auto, using(std::proofs::lemmas::Grind::common_steps, crate::proofs::Numbered::one_more_numbered))]
fn push_triples(text: &mut Vec<u8>, triples: &[Triple; 3]) -> Result<(), AllocError>
    ensures { OnOk result (text.new.items ≡ text.old.items
        ++ flat_map triple_line (enumerate_from 0 triples.now)) }
{
    for (number, triple) in triples.iter().enumerate() {
        push_triple(text, number as u64, *triple)?;
    }
    Ok(())
}

/// Appends the line of a triple with its number.
#[tactic(auto, unfolding(crate::specs::Report::triple_line))]
fn push_triple(text: &mut Vec<u8>, number: u64, triple: Triple) -> Result<(), AllocError>
    ensures { OnOk result (text.new.items ≡ text.old.items ++ triple_line (number, triple)) }
{
    text.push(b't')?;
    push_decimal(text, number)?;
    text.push(b' ')?;
    push_hex8(text, triple.dmt)?;
    text.push(b' ')?;
    push_hex8(text, triple.dmd)?;
    text.push(b' ')?;
    push_hex8(text, triple.dma)?;
    text.push(b'\n')?;
    Ok(())
}
