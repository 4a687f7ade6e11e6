//! The report of a run, whole.

ghost use Rattle.std.specs.Prelude.{◌≡◌, ◌++◌, map, Some, IfOk, OnOk};
ghost use Rattle.std.specs.List.{enumerate_from, flat_map};
ghost use Rattle.m88_report.specs.Report.{fault_lines, report_of};

use crate::lines::{
    push_carry, push_count, push_end, push_fault, push_output, push_registers, push_words,
};
use m88_base::NoMemory;
use m88_event::{Outcome, Record};
use std::alloc::{AllocError, Global};

/// The report of what a run came to: how it ended, what was retired, registers, carry and output, the words of data
/// memory that changed, the counts, and the control registers at each data fault. Each line ends with LF.
#[tactic(auto, unfolding(crate::specs::Report::report_of))]
pub fn report(alloc: Global, outcome: &Outcome) -> Result<Vec<u8>, NoMemory>
    ensures { IfOk result (λ text. text.items ≡ report_of outcome.now) }
{
    let mut text = Vec::new(alloc);
    push_end(&mut text, outcome.end)?;
    push_count(&mut text, b"retired", u64::from(outcome.retired))?;
    push_registers(&mut text, &known(&outcome.regs))?;
    push_carry(&mut text, outcome.carry)?;
    push_output(&mut text, outcome.out.as_slice())?;
    push_words(&mut text, outcome.changed.as_slice())?;
    push_count(&mut text, b"events", outcome.events)?;
    push_count(&mut text, b"answers", u64::from(outcome.answers))?;
    push_count(
        &mut text,
        b"faults",
        outcome.records.as_slice().len() as u64,
    )?;
    push_faults(&mut text, outcome.records.as_slice())?;
    Ok(text)
}

/// Registers of which none waits.
fn known(values: &[u32; 32]) -> [Option<u32>; 32]
    ensures { result ≡ map Some values.now }
{
    values.map(Some)
}

/// Appends the lines of the data faults, numbered from 1.
#[tactic(auto, using(std::proofs::lemmas::Grind::common_steps, crate::proofs::Numbered::one_more_numbered))]
fn push_faults(text: &mut Vec<u8>, records: &[Record]) -> Result<(), AllocError>
    ensures { OnOk result (text.new.items ≡ text.old.items
        ++ flat_map fault_lines (enumerate_from 1 records.now)) }
{
    for (index, fault) in records.iter().enumerate() {
        push_fault(text, index as u64 + 1, fault)?;
    }
    Ok(())
}
