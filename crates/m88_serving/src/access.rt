//! Which words of DMT an access has.
ghost use Rattle.std.specs.Prelude.{◌≡◌};
ghost use Rattle.m88_serving.specs.Faults.{is_dmt, is_fit, is_fit_size, is_fit_store};

use m88_base::{Reg, Triple};
use m88_isa::{Access, access_in, triple_of};

/// Whether a word is the DMT of an access that some instruction makes.
#[tactic(auto, unfolding(crate::specs::Faults::is_dmt))]
pub(crate) fn is_dmt(dmt: u32) -> bool
    ensures { result ≡ is_dmt dmt }
{
    let access = access_in(&Triple {
        dmt,
        dmd: 0,
        dma: 0,
    });
    is_fit(&access) && triple_of(&access).dmt == dmt
}

/// Whether an access is one that some instruction makes.
#[tactic(auto, unfolding(crate::specs::Faults::is_fit))]
fn is_fit(access: &Access) -> bool
    ensures { result ≡ is_fit access.now }
{
    is_fit_store(access) && is_fit_size(access)
}

/// Whether an access loads no register and extends no sign where it is a store.
fn is_fit_store(access: &Access) -> bool
    ensures { result ≡ is_fit_store access.now }
{
    !access.write || access.reg == Reg::ZERO && !access.signed
}

/// Whether what an access is half of, and its sign, go with the bytes that it touches.
fn is_fit_size(access: &Access) -> bool
    ensures { result ≡ is_fit_size access.now }
{
    match access.en {
        15 => !access.signed && !(access.doub1 && access.lock),
        12 | 3 => !access.doub1 && !access.lock,
        8 | 4 | 2 | 1 => !access.doub1 && !(access.lock && access.signed),
        _ => false,
    }
}
