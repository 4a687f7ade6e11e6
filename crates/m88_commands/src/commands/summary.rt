//! The summary of the run of a workload.
ghost use Rattle.std.specs.Prelude.{◌≡◌, ◌++◌, IfOk, OnOk, map};
ghost use Rattle.m88_commands.specs.Answer.Workload.{changes_line, registers_xor_line, summary_of, workload_line, xor_of};

use m88_base::{NoMemory, push_decimal, push_hex8};
use m88_event::Outcome;
use m88_report::{push_count, push_end};
use std::alloc::{AllocError, Global};

/// The summary of what the run of the workload of a number and a count came to. Each line ends with LF.
#[tactic(auto, unfolding(crate::specs::Answer::Workload::summary_of))]
pub fn summary(
    alloc: Global,
    number: u32,
    count: u32,
    outcome: &Outcome,
) -> Result<Vec<u8>, NoMemory>
    ensures { IfOk result (λ text. text.items ≡ summary_of number count outcome.now) }
{
    let mut text = Vec::new(alloc);
    push_workload(&mut text, number, count)?;
    push_end(&mut text, outcome.end)?;
    push_count(&mut text, b"retired", u64::from(outcome.retired))?;
    push_count(&mut text, b"events", outcome.events)?;
    push_count(&mut text, b"answers", u64::from(outcome.answers))?;
    let faults = outcome.records.as_slice().len() as u64;
    push_count(&mut text, b"faults", faults)?;
    push_registers_xor(&mut text, &outcome.regs)?;
    push_changes(&mut text, outcome.changed.as_slice())?;
    Ok(text)
}

/// Appends the line that names the workload.
fn push_workload(text: &mut Vec<u8>, number: u32, count: u32) -> Result<(), AllocError>
    ensures { OnOk result (text.new.items ≡ text.old.items ++ workload_line number count) }
{
    text.extend_from_slice(b"soak ")?;
    push_decimal(text, u64::from(number))?;
    text.push(b' ')?;
    push_decimal(text, u64::from(count))?;
    text.extend_from_slice(b"\n")
}

/// Appends the line of the exclusive or of all registers.
fn push_registers_xor(text: &mut Vec<u8>, registers: &[u32; 32]) -> Result<(), AllocError>
    ensures { OnOk result (text.new.items ≡ text.old.items ++ registers_xor_line registers.now) }
{
    text.extend_from_slice(b"regs ")?;
    push_hex8(text, xor_of(registers))?;
    text.push(b'\n')?;
    Ok(())
}

/// Appends the line of the words of memory that changed, each with its address.
#[tactic(auto, unfolding(crate::specs::Answer::Workload::changes_line))]
fn push_changes(text: &mut Vec<u8>, words: &[(u32, u32)]) -> Result<(), AllocError>
    ensures { OnOk result (text.new.items ≡ text.old.items ++ changes_line words.now) }
{
    text.extend_from_slice(b"mem ")?;
    push_decimal(text, words.len() as u64)?;
    text.push(b' ')?;
    push_hex8(text, xor_of_values(words))?;
    text.extend_from_slice(b"\n")
}

/// The exclusive or of all registers.
fn xor_of(registers: &[u32; 32]) -> u32
    ensures { result ≡ xor_of registers.now }
{
    let mut all = 0;
    for register in registers {
        all ^= *register;
    }
    all
}

/// The exclusive or of the words that stand at addresses.
fn xor_of_values(words: &[(u32, u32)]) -> u32
    ensures { result ≡ xor_of (map (λ w. w.1) words.now) }
{
    let mut all = 0;
    for (_, word) in words {
        all ^= *word;
    }
    all
}
