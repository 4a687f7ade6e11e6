//! The text for a source: its listing, or the text that refuses it.
ghost use Rattle.std.specs.Prelude.{◌≢◌, ◌≤◌, [], IfOk, length, map, string_bytes};
ghost use Rattle.std.specs.List.{All};
ghost use Rattle.m88_base.specs.Image.{IsImage, byte_at};
ghost use Rattle.m88_parse.specs.Fault.{out_of_memory, reason};
ghost use Rattle.m88_link.specs.Faults.{memory_fault};
ghost use Rattle.m88_link.specs.Forced.{forced_layout};
ghost use Rattle.m88_link.specs.Linked.{IsLinked};
ghost use Rattle.m88_link.specs.Reasons.{link_reason};
ghost use Rattle.m88_asm.specs.Fault.{memory_ran_out};
ghost use Rattle.m88_asm.specs.Reasons.{asm_reason};
ghost use Rattle.m88_asm.specs.Sources.{IsRefusedSource};
ghost use Rattle.m88_base.specs.Reading.{most_input};
ghost use Rattle.m88_listing.specs.Answer.{IsRefusedWith};
ghost use Rattle.m88_listing.specs.Listing.{ListsAccepted};
ghost use Rattle.m88_listing.specs.Inside.Replies.{IsBuilt, IsOfName, IsUnlinkedUnit, ListsAs};
ghost use Rattle.m88_listing.specs.Inside.Slots.{Climb, IsSlot, kept_row};

use crate::entries::{labels, numbers, push_entries};
use crate::layout::slots;
use crate::refused::push_refusal;
use crate::rows::push_source;
use crate::slots::Slot;
use crate::standing::standings;
use crate::sums::push_sums;
use m88_asm::{AsmFault, AsmKind, assemble};
use m88_base::{Image, NoMemory, Refusal, Refused, Reply, accept};
use m88_link::{LinkFault, LinkKind, Object, link_forced, stand};
use m88_parse::{ParseFault, ParseKind, Unit, parse};
use std::alloc::Global;

/// How many times the bytes of a source there is room for from the start, as much as lines of one byte take.
const ROOM: usize = 22;

/// The reply that refuses a source at a line and a column, both from 1, for a reason, with what is kept of the rows
/// that it shows.
fn refuse(
    alloc: Global,
    source: &[u8],
    slots: &[Slot],
    image: &Image,
    line: u32,
    column: u32,
    reason: String,
) -> Result<Reply, NoMemory>
    requires short { length source.now ≤ most_input }
    requires each { All (IsSlot (byte_at image.now)) slots.now }
    requires climb { Climb 1 slots.now }
    ensures { IsRefusedWith source.now
        (record { line = line; column = column; reason = string_bytes reason })
        (map (kept_row (byte_at image.now)) slots.now) → IfOk result (ListsAs source.now) }
{
    let mut text = Vec::with_capacity(alloc, ROOM * source.len())?;
    push_refusal(
        &mut text,
        source,
        slots,
        image,
        line,
        column,
        reason.as_bytes(),
    )?;
    let refusal = Refusal::new(u64::from(line), column, reason);
    Ok(Reply {
        text,
        refused: Some(Refused::unshown(refusal)),
    })
}

/// The reply that refuses a source at a line and a column, both from 1, for a reason, and shows no row.
fn refuse_bare(
    alloc: Global,
    source: &[u8],
    line: u32,
    column: u32,
    reason: String,
) -> Result<Reply, NoMemory>
    requires { length source.now ≤ most_input }
    ensures { IsRefusedWith source.now
        (record { line = line; column = column; reason = string_bytes reason }) []
        → IfOk result (ListsAs source.now) }
{
    refuse(alloc, source, &[], &Image::new(alloc), line, column, reason)
}

/// The reply for a fault of the source's lines, unless the fault is that memory ran out.
fn unread(alloc: Global, source: &[u8], fault: ParseFault) -> Result<Reply, NoMemory>
    requires { length source.now ≤ most_input }
    ensures refused { IsRefusedSource 0 source.now
        (record { line = fault.line; column = fault.col; reason = reason fault.kind })
        → IfOk result (ListsAs source.now) }
    ensures told { IfOk result (λ _. fault ≢ out_of_memory) }
{
    if fault.kind == ParseKind::Memory {
        return Err(NoMemory);
    }
    let reason = String::from_str(alloc, fault.kind.reason())?;
    refuse_bare(alloc, source, fault.line, fault.col, reason)
}

/// The reply for a fault of the unit's statements, unless the fault is that memory ran out.
fn unassembled(alloc: Global, source: &[u8], fault: AsmFault) -> Result<Reply, NoMemory>
    requires { length source.now ≤ most_input }
    ensures refused { IsRefusedSource 0 source.now
        (record { line = fault.line; column = fault.col; reason = asm_reason fault.kind })
        → IfOk result (ListsAs source.now) }
    ensures told { IfOk result (λ _. fault ≢ memory_ran_out) }
{
    if fault.kind == AsmKind::Memory {
        return Err(NoMemory);
    }
    let reason = fault.kind.to_string(alloc)?;
    refuse_bare(alloc, source, fault.line, fault.col, reason)
}

/// The reply for a fault of the unit's layout by which its sections don't have their room, unless the fault is that
/// memory ran out.
fn unplaced(alloc: Global, source: &[u8], fault: LinkFault) -> Result<Reply, NoMemory>
    requires { length source.now ≤ most_input }
    ensures refused { IsRefusedWith source.now
        (record { line = fault.line; column = fault.col; reason = link_reason fault.kind }) []
        → IfOk result (ListsAs source.now) }
    ensures told { IfOk result (λ _. fault ≢ memory_fault) }
{
    if fault.kind == LinkKind::Memory {
        return Err(NoMemory);
    }
    let reason = fault.kind.to_string(alloc)?;
    refuse_bare(alloc, source, fault.line, fault.col, reason)
}

/// The reply for a fault by which a name or a distance is refused. It has the rows of what can be carried out, whose
/// bytes the image has.
fn unnamed(
    alloc: Global,
    source: &[u8],
    unit: &Unit,
    objects: &[Object],
    image: &Image,
    fault: LinkFault,
) -> Result<Reply, NoMemory>
    requires short { length source.now ≤ most_input }
    requires unlinked { IsUnlinkedUnit source.now unit.now objects.now fault }
    requires kind { IsOfName fault.kind }
    requires image { IsImage image.now }
    requires linked { IsLinked (forced_layout objects.now) image.now }
    ensures { IfOk result (ListsAs source.now) }
{
    let placements = stand(alloc, objects)?;
    let standings = standings(alloc, unit, placements.as_slice())?;
    let slots = slots(alloc, standings.as_slice())?;
    let reason = fault.kind.to_string(alloc)?;
    refuse(
        alloc,
        source,
        slots.as_slice(),
        image,
        fault.line,
        fault.col,
        reason,
    )
}

/// The listing of a source that is accepted, by its unit, the objects of that and their image.
fn listing(
    alloc: Global,
    source: &[u8],
    unit: &Unit,
    objects: &[Object],
    image: &Image,
) -> Result<Vec<u8>, NoMemory>
    requires short { length source.now ≤ most_input }
    requires accepted { IsBuilt source.now unit.now objects.now image.now }
    ensures { IfOk result (λ text. ListsAccepted source.now text.items) }
{
    let placements = stand(alloc, objects)?;
    let standings = standings(alloc, unit, placements.as_slice())?;
    let slots = slots(alloc, standings.as_slice())?;
    let labels = labels(alloc, standings.as_slice())?;
    let numbers = numbers(alloc, standings.as_slice())?;
    let mut text = Vec::with_capacity(alloc, ROOM * source.len())?;
    push_source(&mut text, source, slots.as_slice(), image)?;
    push_entries(&mut text, b"labels", labels.as_slice())?;
    push_entries(&mut text, b"numbers", numbers.as_slice())?;
    push_sums(&mut text, objects, image.start())?;
    Ok(text)
}

/// The reply to a source.
pub(crate) fn reply_to(alloc: Global, source: &[u8]) -> Result<Reply, NoMemory>
    requires { length source.now ≤ most_input }
    ensures { IfOk result (ListsAs source.now) }
{
    let unit = match parse(alloc, source) {
        Ok(unit) => unit,
        Err(fault) => return unread(alloc, source, fault),
    };
    let objects = match assemble(alloc, &unit) {
        Ok(objects) => objects,
        Err(fault) => return unassembled(alloc, source, fault),
    };
    let (image, fault) = match link_forced(alloc, &objects) {
        Ok(linked) => linked,
        Err(fault) => return unplaced(alloc, source, fault),
    };
    if let Some(fault) = fault {
        return unnamed(alloc, source, &unit, &objects, &image, fault);
    }
    let text = listing(alloc, source, &unit, &objects, &image)?;
    Ok(accept(text))
}
