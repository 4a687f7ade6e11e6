//! The refusal of a source for a fault. A source may stand behind other lines of its input. They are counted in it, in
//! 64 bits, so that no sum of two line numbers is too great.
ghost use Rattle.std.specs.Prelude.{◌≡◌, ◌≢◌, ◌+◌, IfOk, string_bytes};
ghost use Rattle.m88_asm.specs.Fault.{memory_ran_out};
ghost use Rattle.m88_asm.specs.Reasons.{asm_reason};
ghost use Rattle.m88_link.specs.Faults.{memory_fault};
ghost use Rattle.m88_link.specs.Reasons.{duplicate_reason, link_reason};
ghost use Rattle.m88_parse.specs.Fault.{out_of_memory};
ghost use Rattle.m88_asm.specs.Sources.{asm_kind_behind, asm_refusal, link_kind_behind, link_refusal, parse_refusal};

use crate::fault::{AsmFault, AsmKind};
use m88_base::{Name, NoMemory, Refusal};
use m88_link::{LinkFault, LinkKind};
use m88_parse::{ParseFault, ParseKind};
use std::alloc::Global;

/// The refusal of a source behind so many lines, none where it is the whole input, for a fault of its lines, unless
/// that is that memory ran out.
pub fn unread(alloc: Global, lines: u32, fault: ParseFault) -> Result<Refusal, NoMemory>
    ensures refusal { IfOk result (λ r. r ≡ parse_refusal lines fault) }
    ensures told { IfOk result (λ _. fault ≢ out_of_memory) }
{
    if fault.kind == ParseKind::Memory {
        return Err(NoMemory);
    }
    let reason = String::from_str(alloc, fault.kind.reason())?;
    Ok(Refusal::new(line_in_input(lines, fault.line), fault.col, reason))
}

/// The same for a fault of its statements.
pub fn unassembled(alloc: Global, lines: u32, fault: AsmFault) -> Result<Refusal, NoMemory>
    ensures refusal { IfOk result (λ r. r ≡ asm_refusal lines fault) }
    ensures told { IfOk result (λ _. fault ≢ memory_ran_out) }
{
    if fault.kind == AsmKind::Memory {
        return Err(NoMemory);
    }
    let reason = reason_of_asm(alloc, lines, fault.kind)?;
    Ok(Refusal::new(line_in_input(lines, fault.line), fault.col, reason))
}

/// The refusal of a source behind so many lines, or of objects behind none, for a fault of the layout, unless that is
/// that memory ran out.
pub fn unlinked(alloc: Global, lines: u32, fault: LinkFault) -> Result<Refusal, NoMemory>
    ensures refusal { IfOk result (λ r. r ≡ link_refusal lines fault) }
    ensures told { IfOk result (λ _. fault ≢ memory_fault) }
{
    if fault.kind == LinkKind::Memory {
        return Err(NoMemory);
    }
    let reason = reason_of_link(alloc, lines, fault.kind)?;
    Ok(Refusal::new(line_in_input(lines, fault.line), fault.col, reason))
}

/// The number of a source's line in its input.
fn line_in_input(lines: u32, line: u32) -> u64
    ensures { result ≡ lines + line }
{
    u64::from(lines) + u64::from(line)
}

/// Why a statement can't be laid out, where a first definition stands behind so many lines.
#[tactic(auto, unfolding(crate::specs::Reasons::asm_reason))]
fn reason_of_asm(alloc: Global, lines: u32, kind: AsmKind) -> Result<String, NoMemory>
    ensures { IfOk result
        (λ reason. string_bytes reason ≡ asm_reason (asm_kind_behind lines kind)) }
{
    match kind {
        AsmKind::Duplicate { name, first } => duplicate(alloc, &name, line_in_input(lines, first)),
        kind => Ok(kind.to_string(alloc)?),
    }
}

/// Why a layout has no image, where a first definition stands behind so many lines.
#[tactic(auto, unfolding(m88_link::specs::Reasons::link_reason))]
fn reason_of_link(alloc: Global, lines: u32, kind: LinkKind) -> Result<String, NoMemory>
    ensures { IfOk result
        (λ reason. string_bytes reason ≡ link_reason (link_kind_behind lines kind)) }
{
    match kind {
        LinkKind::Duplicate { name, first } => duplicate(alloc, &name, line_in_input(lines, first)),
        kind => Ok(kind.to_string(alloc)?),
    }
}

/// That a name is defined already, with the line of its first definition.
fn duplicate(alloc: Global, name: &Name, first: u64) -> Result<String, NoMemory>
    ensures { IfOk result (λ reason. string_bytes reason ≡ duplicate_reason name.now first) }
{
    Ok(format!(in alloc; "duplicate {name} first at {first}")?)
}
