//! The three words that the data unit keeps of an access, and the access that they tell ("Control Registers": data unit
//! transaction registers).
ghost use Rattle.std.specs.Prelude.{◌≡◌, ◌≤◌, true};
ghost use Rattle.m88_isa.specs.Compute.{weight_if};
ghost use Rattle.m88_isa.specs.Memory.{IsWordAccess};
ghost use Rattle.m88_isa.specs.Triples.{access_in, dmt_of, finished, is_valid_triple, triple_of};

use crate::planned::Access;
use m88_base::{Reg, Triple};

/// DMT's bit of the first half of a double word.
const DOUB1: u32 = 1 << 13;

/// DMT's bit of both halves of an exchange.
const LOCKBAR: u32 = 1 << 12;

/// The lowest bit of DREG in DMT, bits 11 to 7: the register that a load writes.
const DREG: u32 = 1 << 7;

/// DMT's bit of a load that asks for the sign.
const SIGNED: u32 = 1 << 6;

/// The lowest bit of EN in DMT, bits 5 to 2: the bytes that are touched, bit 5 for the one at offset 0.
const EN: u32 = 1 << 2;

/// How many values EN has.
const EN_VALUES: u32 = 1 << 4;

/// DMT's bit of a store.
const WRITE: u32 = 1 << 1;

/// DMT's bit of there being an access.
const VALID: u32 = 1 << 0;

/// The words of an access. They tell an access that the data unit can make.
#[tactic(auto, using(crate::proofs::Told::valid_of, crate::proofs::Told::told_of))]
pub fn triple_of(access: &Access) -> Triple
    ensures value { result ≡ triple_of access.now }
    ensures valid { IsWordAccess access.now → is_valid_triple result ≡ true }
    ensures told { IsWordAccess access.now → access_in result ≡ access.now }
{
    Triple {
        dmt: dmt_of(access),
        dmd: access.value,
        dma: access.addr,
    }
}

/// The word that says what kind of access it is.
fn dmt_of(access: &Access) -> u32
    ensures { result ≡ dmt_of access.now }
{
    let en = u32::from(access.en);
    flag(access.doub1, DOUB1)
        + flag(access.lock, LOCKBAR)
        + access.reg.number() * DREG
        + flag(access.signed, SIGNED)
        + en * EN
        + flag(access.write, WRITE)
        + VALID
}

/// The weight of a bit where it is set.
fn flag(set: bool, weight: u32) -> u32
    ensures value { result ≡ weight_if set weight }
    ensures bound { result ≤ weight }
{
    if set { weight } else { 0 }
}

/// Whether a triple is of an access that isn't done, VALID of its DMT.
pub fn is_valid_triple(triple: &Triple) -> bool
    ensures { result ≡ is_valid_triple triple.now }
{
    triple.dmt / VALID % 2 == 1
}

/// A triple once its access is done: VALID is cleared.
pub fn finished(triple: &Triple) -> Triple
    ensures { result ≡ finished triple.now }
{
    Triple {
        dmt: triple.dmt - triple.dmt / VALID % 2 * VALID,
        dmd: triple.dmd,
        dma: triple.dma,
    }
}

/// The access of a triple, field by field, whatever its words are.
pub fn access_in(triple: &Triple) -> Access
    ensures { result ≡ access_in triple.now }
{
    let dmt = triple.dmt;
    Access {
        write: dmt / WRITE % 2 == 1,
        addr: triple.dma,
        en: (dmt / EN % EN_VALUES) as u8,
        reg: Reg::from_low_bits(dmt / DREG),
        signed: dmt / SIGNED % 2 == 1,
        doub1: dmt / DOUB1 % 2 == 1,
        lock: dmt / LOCKBAR % 2 == 1,
        value: triple.dmd,
    }
}
