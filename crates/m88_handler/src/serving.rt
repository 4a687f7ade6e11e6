//! What the monitor's own service makes of a data fault, with which a handler is compared.
ghost use Rattle.std.specs.Prelude.{◌≡◌, IfOk, None, OnOk, true, slice_index};
ghost use Rattle.m88_base.specs.Pages.{page_number};
ghost use Rattle.m88_isa.specs.Triples.{access_in};
ghost use Rattle.m88_mem.specs.DataBus.{GainsReady, image_bus, ready_of};
ghost use Rattle.m88_monitor.specs.Serving.{after_service};
ghost use Rattle.m88_serving.specs.Faults.{record_fault};
ghost use Rattle.m88_handler.specs.Entering.{faulted, serving_of_fault};
ghost use Rattle.m88_handler.specs.Handled.{wanted_of};
ghost use Rattle.m88_handler.specs.Inside.Served.{AreReady};

use m88_base::{Absent, Image, NoMemory, Triple};
use m88_ctrl::Control;
use m88_event::Record;
use m88_isa::access_in;
use m88_mem::Memory;
use m88_monitor::serve;
use m88_scoreboard::RegFile;
use m88_serving::control_left;
use std::alloc::Global;

/// What the service leaves.
#[derive(Drop)]
pub(crate) struct Wanted {
    pub control: Control,
    pub regs: RegFile,
    pub memory: Memory,
}

/// What the service leaves of a data fault with a record and these registers, over an image of the words of data
/// memory, where every page is absent.
pub(crate) fn service_of(
    alloc: Global,
    fault: &Record,
    given: &[u32; 32],
    words: &Image,
) -> Result<Wanted, NoMemory>
    requires fault { record_fault fault.now ≡ None }
    requires zero { slice_index given.now 0 ≡ 0 }
    ensures served { IfOk result (λ wanted. wanted_of wanted
        ≡ after_service (serving_of_fault (faulted fault.now given.now (image_bus words.now)))) }
    ensures image { IfOk result (λ wanted. wanted.memory.image ≡ words.now) }
{
    let mut control = control_left(fault);
    let mut regs = RegFile::of(*given);
    let mut memory = Memory::new(alloc, words, &Absent::All)?;
    prepare_all(&mut memory, &control)?;
    serve(&mut control, &mut regs, &mut memory);
    Ok(Wanted {
        control,
        regs,
        memory,
    })
}

/// Makes the pages of the stores among the three transactions ready.
fn prepare_all(memory: &mut Memory, control: &Control) -> Result<(), NoMemory>
    ensures gains { OnOk result (GainsReady memory.old memory.new) }
    ensures ready { OnOk result (AreReady (ready_of memory.new) control.now) }
{
    prepare(memory, &control.triple(0))?;
    prepare(memory, &control.triple(1))?;
    prepare(memory, &control.triple(2))
}

/// Makes the page of a transaction ready, if it is a store.
fn prepare(memory: &mut Memory, triple: &Triple) -> Result<(), NoMemory>
    ensures gains { OnOk result (GainsReady memory.old memory.new) }
    ensures ready { OnOk result ((access_in triple.now).write ≡ true
        → ready_of memory.new (page_number triple.now.dma) ≡ true) }
{
    if access_in(triple).write {
        memory.prepare(triple.dma)?;
    }
    Ok(())
}
