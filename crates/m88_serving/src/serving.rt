//! The service of the transactions of a data fault, with a line for each access.
ghost use Rattle.std.specs.Prelude.{◌≡◌, ◌<◌, ◌++◌, OnOk, true};
ghost use Rattle.m88_base.specs.Pages.{page_number};
ghost use Rattle.m88_isa.specs.Triples.{access_in};
ghost use Rattle.m88_mem.specs.DataBus.{absent_of, bus_of, ready_of};
ghost use Rattle.m88_monitor.specs.Serving.{CanServeAll, CanServeTriple, after_service, after_triple, serving_of, triple_at};
ghost use Rattle.m88_scoreboard.specs.Registers.{none_waits, waiting_of};
ghost use Rattle.m88_serving.specs.Served.{transactions_text, triple_text};

use crate::text::push_access;
use m88_base::{NoMemory, Triple};
use m88_ctrl::Control;
use m88_isa::access_in;
use m88_mem::Memory;
use m88_monitor::serve_triple;
use m88_scoreboard::RegFile;

/// Serves the three transactions, the oldest first, and appends the line of each that is valid.
pub(crate) fn serve_all(
    ctrl: &mut Control,
    regs: &mut RegFile,
    memory: &mut Memory,
    text: &mut Vec<u8>,
) -> Result<(), NoMemory>
    requires waiting { waiting_of regs.old ≡ none_waits }
    requires able { CanServeAll (λ page. true) ctrl.old }
    ensures served { OnOk result (serving_of ctrl.new regs.new memory.new
        ≡ after_service (serving_of ctrl.old regs.old memory.old)) }
    ensures waiting { OnOk result (waiting_of regs.new ≡ none_waits) }
    ensures image { OnOk result (memory.new.image ≡ memory.old.image) }
    ensures text { OnOk result (text.new.items
        ≡ text.old.items ++ transactions_text (serving_of ctrl.old regs.old memory.old)) }
{
    serve(ctrl, regs, memory, 0, text)?;
    serve(ctrl, regs, memory, 1, text)?;
    serve(ctrl, regs, memory, 2, text)?;
    Ok(())
}

/// Serves the transaction at a place, 0 the oldest, and appends the line of its access, if it is valid.
fn serve(
    ctrl: &mut Control,
    regs: &mut RegFile,
    memory: &mut Memory,
    index: usize,
    text: &mut Vec<u8>,
) -> Result<(), NoMemory>
    requires index { index < 3 }
    requires waiting { waiting_of regs.old ≡ none_waits }
    requires able { CanServeTriple (λ page. true) (triple_at index ctrl.old) }
    ensures served { OnOk result (serving_of ctrl.new regs.new memory.new
        ≡ after_triple index (serving_of ctrl.old regs.old memory.old)) }
    ensures waiting { OnOk result (waiting_of regs.new ≡ none_waits) }
    ensures image { OnOk result (memory.new.image ≡ memory.old.image) }
    ensures text { OnOk result (text.new.items
        ≡ text.old.items ++ triple_text index (serving_of ctrl.old regs.old memory.old)) }
{
    prepare(memory, &ctrl.triple(index))?;
    if let Some(served) = serve_triple(ctrl, regs, memory, index) {
        push_access(text, index as u64, &served.access, served.datum)?;
    }
    Ok(())
}

/// Makes the page of a transaction ready, if it is a store.
fn prepare(memory: &mut Memory, triple: &Triple) -> Result<(), NoMemory>
    ensures ready { OnOk result ((access_in triple.now).write ≡ true
        → ready_of memory.new (page_number triple.now.dma) ≡ true) }
    ensures bus { bus_of memory.new ≡ bus_of memory.old }
    ensures absent { absent_of memory.new ≡ absent_of memory.old }
    ensures image { memory.new.image ≡ memory.old.image }
{
    if access_in(triple).write {
        memory.prepare(triple.dma)?;
    }
    Ok(())
}
