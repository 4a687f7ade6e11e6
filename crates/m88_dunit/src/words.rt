//! The access that three words have, and the register that an access loads.
ghost use Rattle.std.specs.Prelude.{◌≡◌, ◌≢◌, ◌↔◌, IsTrue, None, Some, false};
ghost use Rattle.m88_isa.specs.Lanes.{IsEnable};
ghost use Rattle.m88_isa.specs.Memory.{IsWordAccess};
ghost use Rattle.m88_isa.specs.Triples.{is_valid_triple, triple_of};
ghost use Rattle.m88_isa.specs.declared.planned.Access.{Access};
ghost use Rattle.m88_dunit.specs.Inside.Stages.{loaded_set};

use m88_base::{Reg, Triple};
use m88_isa::{Access, access_in, triple_of};

/// The access whose words these are, or None where no access that the data unit can make has them: an enable that
/// there isn't, BO or DAS set, a store with a register, VALID 0 and so on.
pub fn access_of(triple: &Triple) -> Option<Access>
    ensures some { (a : Access) →
        (result ≡ Some a) ↔ (IsWordAccess a × (triple_of a ≡ triple.now)) }
    ensures none { (result ≡ None)
        ↔ ((a : Access) → IsWordAccess a → triple_of a ≢ triple.now) }
    ensures invalid { is_valid_triple triple.now ≡ false → result ≡ None }
{
    let access = access_in(triple);
    if !is_word_access(&access) {
        return None;
    }
    if triple_of(&access) != *triple {
        return None;
    }
    Some(access)
}

/// Whether an access is one that the data unit can make.
fn is_word_access(access: &Access) -> bool
    ensures { IsTrue result ↔ IsWordAccess access.now }
{
    if access.addr % 4 != 0 || !is_enable(access.en) {
        return false;
    }
    if !access.write {
        return access.value == 0;
    }
    access.reg == Reg::ZERO && !access.signed
}

/// Whether a number is one of the enables: a word, its halves, its bytes.
fn is_enable(en: u8) -> bool
    ensures { IsTrue result ↔ IsEnable en }
{
    matches!(en, 15 | 12 | 3 | 8 | 4 | 2 | 1)
}

/// The set of the register that an access loads, if there is one.
pub(crate) fn loaded_set(access: Option<Access>) -> u32
    ensures { result ≡ loaded_set access }
{
    match access {
        Some(access) if !access.write && access.reg != Reg::ZERO => 1 << access.reg.number(),
        _ => 0,
    }
}
