//! One entry of a handler by a data fault that an input tells.
ghost use Rattle.std.specs.Prelude.{◌≡◌, ◌+◌, ◌≤◌, IfOk, length};
ghost use Rattle.m88_base.specs.Reading.{most_input};
ghost use Rattle.m88_entries.specs.Left.{fault_text};
ghost use Rattle.m88_entries.specs.ToldFaults.{IsUsable, told_by};
ghost use Rattle.m88_isa.specs.ImageProgram.{IsProgramOf};
ghost use Rattle.m88_isa.specs.Machine.{Program};
ghost use Rattle.m88_serving.specs.Served.{turned_down};
ghost use Rattle.m88_supering.specs.Inputs.{no_handler_refusal};
ghost use Rattle.m88_supering.specs.Inside.Replies.{Replies};
ghost use Rattle.m88_supering.specs.Request.{most_steps};
ghost use Rattle.m88_supering.specs.declared.request.Request.TheVariants.{Fault};

use m88_asm::image_of_source;
use m88_base::{Image, NoMemory, Refusal, Reply, accept, parted_at, refuse};
use m88_entries::{ToldFault, entry_text, told_fault};
use m88_handler::enter;
use m88_serving::{ServeFault, Untold};
use std::alloc::Global;

/// The reply to an input of `fault`, with up to so many instructions of its handler.
pub(crate) fn enter_told(alloc: Global, steps: u32, input: &[u8]) -> Result<Reply, NoMemory>
    requires short { length input.now ≤ most_input }
    requires most { steps ≤ most_steps }
    ensures { IfOk result (Replies (Fault steps) input.now) }
{
    let parted = match parted_at(input, b"handler") {
        Ok(parted) => parted,
        Err(unparted) => return refuse(alloc, &no_handler(alloc, unparted.lines)?),
    };
    let told = match told_fault(alloc, parted.before) {
        Ok(told) => told,
        Err(Untold::Refused(fault)) => return refuse(alloc, &refusal_of(alloc, &fault)?),
        Err(Untold::Memory) => return Err(NoMemory),
    };
    let code = match image_of_source(alloc, parted.lines, parted.behind)? {
        Ok(image) => image,
        Err(refusal) => return refuse(alloc, &refusal),
    };
    let text = text_of(alloc, &code, &told, steps)?;
    Ok(accept(text))
}

/// The text of the entry of a handler, whose code is an image, by a fault that was told.
fn text_of(alloc: Global, code: &Image, told: &ToldFault, steps: u32) -> Result<Vec<u8>, NoMemory>
    requires usable { IsUsable told.now }
    requires most { steps ≤ most_steps }
    ensures { IfOk result (λ text. (p : Program) → IsProgramOf code.now p
        → text.items ≡ fault_text p steps (told_by told.now)) }
{
    let case = &told.case;
    let entry = enter(alloc, code, &case.fault, &told.given, &case.image, steps)?;
    let text = entry_text(alloc, &case.fault, &entry)?;
    Ok(text)
}

/// The refusal of an input of so many lines, none of which is the line `handler`.
fn no_handler(alloc: Global, lines: u32) -> Result<Refusal, NoMemory>
    ensures { IfOk result (λ r. r ≡ no_handler_refusal (lines + 1)) }
{
    let reason = String::from_str(alloc, "no handler")?;
    Ok(Refusal::new(u64::from(lines) + 1, 1, reason))
}

/// The refusal for a fault of what stands before that line.
fn refusal_of(alloc: Global, fault: &ServeFault) -> Result<Refusal, NoMemory>
    ensures { IfOk result (λ r. r ≡ turned_down fault.now) }
{
    let reason = String::from_str(alloc, fault.kind.reason())?;
    Ok(Refusal::new(fault.line, 1, reason))
}
