//! The accesses of loads, stores and exchanges ("Instruction Set": load, store and exchange instructions).

ghost use Rattle.std.specs.Prelude.{◌≡◌, ◌≤◌, [], ◌∷◌, false, true};
ghost use Rattle.m88_isa.specs.Address.{after_bytes};
ghost use Rattle.m88_isa.specs.Effect.{accesses, touches_at};
ghost use Rattle.m88_isa.specs.Inside.Outline.{IsOutline, with_stored};
ghost use Rattle.m88_isa.specs.Memory.{access_of, first_half, load, locked, no_access, recorded, size_of, store};
ghost use Rattle.m88_isa.specs.Operands.{register_after};

use crate::address::word_address;
use crate::effect::register;
use crate::instr::MemOp;
use crate::lanes::enable_of;
use crate::operands::{no_register, register_after};
use crate::planned::{Access, Accesses, Inputs, Outline};
use crate::vector::MISALIGNED;
use m88_base::Reg;

/// What a memory instruction does at a byte address.
pub(crate) fn accesses(op: MemOp, d: Reg, place: u32, x: Inputs) -> Outline
    ensures { IsOutline result x (λ regs. accesses op d place (with_stored op d regs x)) }
{
    let size = size_of(op);
    if x.mxm {
        return Outline::Memory {
            op,
            d,
            place: place / size * size,
        };
    }
    if place % size == 0 {
        Outline::Memory { op, d, place }
    } else {
        Outline::Raise(MISALIGNED)
    }
}

/// The accesses of a memory mnemonic with D at a byte address, of the values that the registers hold.
// Inlined, so that the accesses are made in the place where the caller keeps them.
#[inline(always)]
pub fn accesses_at(op: MemOp, d: Reg, place: u32, regs: &[u32; 32]) -> Accesses
    ensures { result ≡ recorded (touches_at op d place regs.now) }
{
    match op {
        MemOp::LdBu | MemOp::LdHu | MemOp::Ld => loads(size_of(op), false, d, place),
        MemOp::LdB | MemOp::LdH => loads(size_of(op), true, d, place),
        MemOp::LdD => loads_double(d, place),
        MemOp::StB | MemOp::StH | MemOp::St => stores(size_of(op), register(regs, d), place),
        MemOp::StD => stores_double(register(regs, d), register(regs, register_after(d)), place),
        MemOp::XmemBu | MemOp::Xmem => exchanges(size_of(op), d, register(regs, d), place),
    }
}

/// The bytes of a datum, of which its address is a multiple or is rounded down to one.
pub fn size_of(op: MemOp) -> u32
    ensures value { result ≡ size_of op }
    ensures least { 1 ≤ result }
{
    match op {
        MemOp::XmemBu | MemOp::LdBu | MemOp::LdB | MemOp::StB => 1,
        MemOp::LdHu | MemOp::LdH | MemOp::StH => 2,
        MemOp::Xmem | MemOp::Ld | MemOp::St => 4,
        MemOp::LdD | MemOp::StD => 8,
    }
}

/// The access of a load of 1, 2 or 4 bytes.
// Neither this nor the next four is inlined: each then writes its accesses as one record; merged into one tail, the
// forms would write each field, and the bytes between fields, by itself.
#[inline(never)]
fn loads(size: u32, signed: bool, d: Reg, place: u32) -> Accesses
    ensures { result ≡ recorded (load size signed d place ∷ []) }
{
    one(load(size, signed, d, place))
}

/// The access of a store of 1, 2 or 4 bytes.
#[inline(never)]
fn stores(size: u32, value: u32, place: u32) -> Accesses
    ensures { result ≡ recorded (store size value place ∷ []) }
{
    one(store(size, value, place))
}

/// The accesses of a load of a double word into D and the register after it.
#[inline(never)]
fn loads_double(d: Reg, place: u32) -> Accesses
    ensures { result ≡ recorded (first_half (load 4 false d place)
        ∷ load 4 false (register_after d) (after_bytes place 4) ∷ []) }
{
    two(
        first_half(load(4, false, d, place)),
        load(4, false, register_after(d), place.wrapping_add(4)),
    )
}

/// The accesses of a store of a double word.
#[inline(never)]
fn stores_double(value: u32, second: u32, place: u32) -> Accesses
    ensures { result ≡ recorded (first_half (store 4 value place)
        ∷ store 4 second (after_bytes place 4) ∷ []) }
{
    two(
        first_half(store(4, value, place)),
        store(4, second, place.wrapping_add(4)),
    )
}

/// The accesses of an exchange of D and 1 or 4 bytes.
#[inline(never)]
fn exchanges(size: u32, d: Reg, value: u32, place: u32) -> Accesses
    ensures { result ≡ recorded (locked (load size false d place)
        ∷ locked (store size value place) ∷ []) }
{
    two(
        locked(load(size, false, d, place)),
        locked(store(size, value, place)),
    )
}

/// A load of 1, 2 or 4 bytes into a register.
fn load(size: u32, signed: bool, d: Reg, place: u32) -> Access
    ensures { result ≡ access_of (load size signed d place) }
{
    Access {
        addr: word_address(place),
        en: enable_of(place, size),
        reg: d,
        signed,
        ..no_access()
    }
}

/// A store of the low 1, 2 or 4 bytes of a register.
fn store(size: u32, value: u32, place: u32) -> Access
    ensures { result ≡ access_of (store size value place) }
{
    Access {
        write: true,
        addr: word_address(place),
        en: enable_of(place, size),
        value,
        ..no_access()
    }
}

/// The first half of a double word.
fn first_half(access: Access) -> Access
    ensures { result ≡ record access { doub1 = true } }
{
    Access {
        doub1: true,
        ..access
    }
}

/// One half of an exchange.
fn locked(access: Access) -> Access
    ensures { result ≡ record access { lock = true } }
{
    Access {
        lock: true,
        ..access
    }
}

/// One access.
fn one(first: Access) -> Accesses
    ensures { result ≡ record { count = 1; first = first; second = no_access } }
{
    Accesses {
        count: 1,
        first,
        second: no_access(),
    }
}

/// Two accesses, in order.
fn two(first: Access, second: Access) -> Accesses
    ensures { result ≡ record { count = 2; first = first; second = second } }
{
    Accesses {
        count: 2,
        first,
        second,
    }
}

/// No access.
pub fn no_accesses() -> Accesses
    ensures { result ≡ recorded [] }
{
    Accesses {
        count: 0,
        first: no_access(),
        second: no_access(),
    }
}

/// An access that isn't there.
fn no_access() -> Access
    ensures { result ≡ no_access }
{
    Access {
        write: false,
        addr: 0,
        en: 0,
        reg: no_register(),
        signed: false,
        doub1: false,
        lock: false,
        value: 0,
    }
}
