//! The instruction pointers as an instruction goes into execution.

ghost use Rattle.std.specs.Prelude.{◌≡◌, ◌%◌, true, false};
ghost use Rattle.m88_isa.specs.Address.{after_bytes};
ghost use Rattle.m88_isa.specs.Flow.{FlowFits};
ghost use Rattle.m88_board.specs.Board.{next_of, pc_of};
ghost use Rattle.m88_board.specs.Kept.{SlotsAgree, lacks_word};
ghost use Rattle.m88_board.specs.Parts.{IsAtWord};
ghost use Rattle.m88_board.specs.Inside.Turns.{IsAdvanced};

use m88_iunit::InstrUnit;
use m88_mem::Memory;

/// The byte addresses of the next instruction that isn't passed over and of the one that follows it.
pub(crate) fn next_two(iunit: &InstrUnit) -> (u32, u32)
    ensures value { result ≡ (pc_of iunit.now, next_of iunit.now) }
    ensures words { IsAtWord result.0 × IsAtWord result.1 }
{
    let nip = iunit.candidate();
    let fip = iunit.following();
    if nip.v {
        (nip.addr, fip.addr)
    } else {
        (fip.addr, fip.addr.wrapping_add(4))
    }
}

/// Whether the image lacks one of the four bytes at an address.
pub(crate) fn lacks_word(memory: &Memory, addr: u32) -> bool
    requires { addr % 4 ≡ 0 }
    ensures { result ≡ lacks_word memory.now.image addr }
{
    memory.fetch(addr).is_none()
}

/// Whether the image lacks a byte of the word at an address, which FIP knows where that is its own.
fn lacks_next(iunit: &InstrUnit, memory: &Memory, next: u32) -> bool
    requires slots { SlotsAgree memory.now.image iunit.now }
    requires word { next % 4 ≡ 0 }
    ensures { result ≡ lacks_word memory.now.image next }
{
    let fip = iunit.following();
    if next == fip.addr {
        return fip.e;
    }
    lacks_word(memory, next)
}

/// Whether the image lacks a byte of the word behind the one at an address, which is known of an instruction that is
/// kept.
// Inlined where an instruction is issued: the addresses that it asks about stand in registers there.
#[inline(always)]
pub(crate) fn lacks_behind(memory: &Memory, addr: u32) -> bool
    requires { addr % 4 ≡ 0 }
    ensures { result ≡ lacks_word memory.now.image (after_bytes addr 4) }
{
    match memory.line(addr) {
        Some(line) => line.lacks_behind,
        None => lacks_word(memory, addr.wrapping_add(4)),
    }
}

/// Whether the image lacks a byte of the word at `behind`, which may be the one behind that at `next`.
// Inlined where an instruction is issued: the addresses that it asks about stand in registers there.
#[inline(always)]
fn lacks_further(memory: &Memory, next: u32, behind: u32) -> bool
    requires next { next % 4 ≡ 0 }
    requires behind { behind % 4 ≡ 0 }
    ensures { result ≡ lacks_word memory.now.image behind }
{
    if behind == next.wrapping_add(4) {
        return lacks_behind(memory, next);
    }
    lacks_word(memory, behind)
}

/// The next instruction, which could be fetched, goes into execution, and others follow it.
// Inlined where an instruction is issued: what follows it stands in registers there.
#[inline(always)]
pub(crate) fn advance(iunit: &mut InstrUnit, memory: &Memory, after: (u32, u32), bubble: bool)
    requires valid { iunit.old.nip.v ≡ true }
    requires fetched { iunit.old.nip.e ≡ false }
    requires flow { FlowFits after bubble }
    requires agree { SlotsAgree memory.now.image iunit.old }
    ensures advanced { IsAdvanced iunit.old iunit.new after.0 after.1 bubble }
    ensures slots { SlotsAgree memory.now.image iunit.new }
{
    let (next, behind) = after;
    let next_e = lacks_next(iunit, memory, next);
    let behind_e = lacks_further(memory, next, behind);
    iunit.advance(next, next_e, behind, behind_e, bubble);
}
