//! The pages of bytes that software touches, at most eight from a place on, so that they lie in at most two pages.

ghost use Rattle.std.specs.Prelude.{ℕ, ◌≡◌, ◌≤◌, true, OnOk};
ghost use Rattle.m88_mem.specs.DataBus.{GainsReady, ready_of};
ghost use Rattle.m88_emul.specs.Aid.{places_from};
ghost use Rattle.m88_emul.specs.Inside.Places.{AreSupplied};
ghost use Rattle.m88_emul.specs.Timeline.{has_place_in};

use m88_base::NoMemory;
use m88_mem::{Memory, PAGE_BYTES};

/// Makes the pages of so many bytes ready.
pub(crate) fn prepare(memory: &mut Memory, place: u32, count: u32) -> Result<(), NoMemory>
    requires { (1 ≤ count) × (count ≤ 8) }
    ensures only { GainsReady memory.old memory.new }
    ensures ready { OnOk result ((page : ℕ) → has_place_in (places_from place count) page ≡ true
        → ready_of memory.new page ≡ true) }
{
    memory.prepare(place)?;
    memory.prepare(place.wrapping_add(count - 1))?;
    Ok(())
}

/// Supplies the pages of so many bytes.
pub(crate) fn supply(memory: &mut Memory, place: u32, count: u32)
    requires { (1 ≤ count) × (count ≤ 8) }
    ensures { AreSupplied (places_from place count) memory.old memory.new }
{
    memory.supply(place / PAGE_BYTES);
    memory.supply(place.wrapping_add(count - 1) / PAGE_BYTES);
}
