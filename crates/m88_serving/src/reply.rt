//! The text for an input: what the handler must come to, or the line that refuses the input.
ghost use Rattle.std.specs.Prelude.{◌≡◌, IfOk, None, true};
ghost use Rattle.m88_base.specs.Reply.{IsRefusalOf, accepts};
ghost use Rattle.m88_mem.specs.DataBus.{image_bus};
ghost use Rattle.m88_serving.specs.Faults.{record_fault};
ghost use Rattle.m88_serving.specs.Served.{served_text, turned_down};
ghost use Rattle.m88_serving.specs.Serving.{serving_with};
ghost use Rattle.m88_serving.specs.Inside.Replies.{RepliesServed};

use crate::entering::control_left;
use crate::fault::ServeFault;
use crate::serving::serve_all;
use crate::telling::{Untold, told_case};
use crate::text::{push_registers, push_slots};
use m88_base::{Absent, Image, NoMemory, Refusal, Reply, accept, refuse};
use m88_event::Record;
use m88_mem::Memory;
use m88_report::push_words;
use m88_scoreboard::RegFile;
use std::alloc::Global;

/// The reply to an input.
pub(crate) fn reply_to(alloc: Global, input: &[u8]) -> Result<Reply, NoMemory>
    ensures { IfOk result (RepliesServed input.now) }
{
    match told_case(alloc, input) {
        Ok(told) => served(alloc, &told.fault, &told.image),
        Err(Untold::Refused(fault)) => turned_down(alloc, &fault),
        Err(Untold::Memory) => Err(NoMemory),
    }
}

/// The reply that refuses an input.
fn turned_down(alloc: Global, fault: &ServeFault) -> Result<Reply, NoMemory>
    ensures { IfOk result (IsRefusalOf (turned_down fault.now)) }
{
    let reason = String::from_str(alloc, fault.kind.reason())?;
    refuse(alloc, &Refusal::new(fault.line, 1, reason))
}

/// The reply to a record without a fault, over an image of the words of data memory: the service of its transactions,
/// and what is left behind it.
fn served(alloc: Global, fault: &Record, image: &Image) -> Result<Reply, NoMemory>
    requires { record_fault fault.now ≡ None }
    ensures accepted { IfOk result (λ reply. accepts reply ≡ true) }
    ensures text { IfOk result (λ reply.
        reply.text.items ≡ served_text (serving_with fault.now (image_bus image.now))) }
{
    let mut ctrl = control_left(fault);
    let mut regs = RegFile::new();
    let mut memory = Memory::new(alloc, image, &Absent::None)?;
    let mut text = Vec::new(alloc);
    serve_all(&mut ctrl, &mut regs, &mut memory, &mut text)?;
    let restart = ctrl.rte();
    push_registers(&mut text, fault.ssbr, &regs.values())?;
    let words = memory.changed(alloc)?;
    push_words(&mut text, words.as_slice())?;
    push_slots(&mut text, restart.ssbr, restart.snip, restart.sfip)?;
    Ok(accept(text))
}
