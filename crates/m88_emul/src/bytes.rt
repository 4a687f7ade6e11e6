//! Bytes of memory that software loads and stores one by one, the highest byte of a datum first.
#![tactic(auto, unfolding(
// a store to a word
m88_isa::specs::Bus::stored))]

ghost use Rattle.std.specs.Prelude.{◌≡◌, ◌<◌, ◌^◌, ◌++◌, map, false};
ghost use Rattle.m88_base.specs.Pages.{page_number};
ghost use Rattle.m88_isa.specs.Address.{after_bytes};
ghost use Rattle.m88_isa.specs.Bus.{bus_after_all, stored};
ghost use Rattle.m88_isa.specs.Lanes.{IsEnable, enable_of};
ghost use Rattle.m88_isa.specs.Memory.{access_of, store};
ghost use Rattle.m88_mem.specs.DataBus.{absent_of, bus_of, ready_of};
ghost use Rattle.m88_emul.specs.Aid.{byte_stores, datum_at, places_from};
ghost use Rattle.m88_emul.specs.Extended.{byte_seen};
ghost use Rattle.m88_emul.specs.Inside.Places.{AreOpen, HasWords, IsOpenPage};

use m88_isa::datum;
use m88_mem::Memory;

/// The enable of the byte at a place.
fn enable_of(place: u32) -> u8
    ensures value { result ≡ enable_of place 1 }
    ensures enable { IsEnable result }
{
    match place % 4 {
        0 => 8,
        1 => 4,
        2 => 2,
        _ => 1,
    }
}

/// The byte at a place.
#[tactic(auto, unfolding(crate::specs::Extended::byte_seen))]
fn byte(memory: &Memory, place: u32) -> u32
    ensures value { result ≡ byte_seen (bus_of memory.now) place }
    ensures bound { result < 2 ^ 8 }
{
    datum(enable_of(place), false, memory.word(place / 4 * 4))
}

/// The half at a place, with its sign where it is signed.
#[tactic(auto, unfolding(crate::specs::Aid::number_behind, crate::specs::Aid::places_from))]
pub(crate) fn half(memory: &Memory, place: u32, signed: bool) -> u32
    ensures { result ≡ datum_at (byte_seen (bus_of memory.now)) signed 2 place }
{
    let half = byte(memory, place) * 0x100 + byte(memory, place.wrapping_add(1));
    if signed && half >= 0x8000 {
        half + 0xFFFF_0000
    } else {
        half
    }
}

/// The word at a place.
#[tactic(auto, unfolding(crate::specs::Aid::number_behind, crate::specs::Aid::places_from))]
pub(crate) fn word(memory: &Memory, place: u32) -> u32
    ensures { result ≡ datum_at (byte_seen (bus_of memory.now)) false 4 place }
{
    let second = place.wrapping_add(1);
    let third = second.wrapping_add(1);
    let fourth = third.wrapping_add(1);
    let high = byte(memory, place) * 0x100 + byte(memory, second);
    let low = byte(memory, third) * 0x100 + byte(memory, fourth);
    high * 0x1_0000 + low
}

/// Stores the low byte of a value.
fn put_byte(memory: &mut Memory, place: u32, value: u32)
    requires { IsOpenPage (ready_of memory.old) (absent_of memory.old) (page_number place) }
    ensures { HasWords (stored (access_of (store 1 value place)) (bus_of memory.old)) memory.old
        memory.new }
{
    if memory
        .write_lanes(place / 4 * 4, enable_of(place), value)
        .is_err()
    {
        unreachable!();
    }
}

/// Stores the low half of a value.
pub(crate) fn put_half(memory: &mut Memory, place: u32, value: u32)
    requires { AreOpen (ready_of memory.old) (absent_of memory.old) (places_from place 2) }
    ensures { HasWords (bus_after_all (map access_of (byte_stores value (places_from place 2)))
        (bus_of memory.old)) memory.old memory.new }
{
    put_byte(memory, place, value >> 8);
    put_byte(memory, place.wrapping_add(1), value);
}

/// Stores a value.
pub(crate) fn put_word(memory: &mut Memory, place: u32, value: u32)
    requires { AreOpen (ready_of memory.old) (absent_of memory.old) (places_from place 4) }
    ensures { HasWords (bus_after_all (map access_of (byte_stores value (places_from place 4)))
        (bus_of memory.old)) memory.old memory.new }
{
    let second = place.wrapping_add(1);
    let third = second.wrapping_add(1);
    put_byte(memory, place, value >> 24);
    put_byte(memory, second, value >> 16);
    put_byte(memory, third, value >> 8);
    put_byte(memory, third.wrapping_add(1), value);
}

/// Stores two values, one behind the other.
pub(crate) fn put_double(memory: &mut Memory, place: u32, first: u32, second: u32)
    requires { AreOpen (ready_of memory.old) (absent_of memory.old) (places_from place 8) }
    ensures { HasWords (bus_after_all (map access_of (byte_stores first (places_from place 4)
        ++ byte_stores second (places_from (after_bytes place 4) 4))) (bus_of memory.old)) memory.old
        memory.new }
{
    put_word(memory, place, first);
    put_word(memory, place.wrapping_add(4), second);
}
