//! The monitor's work at an interrupt by which programs change places: it saves the words of one and resumes the other.

ghost use Rattle.std.specs.Prelude.{◌≡◌, ◌≤◌, Some, slice_get, if◌then◌else◌};
ghost use Rattle.m88_ctrl.specs.ControlRegisters.{by_number, entered, returned};
ghost use Rattle.m88_base.specs.Slot.{slot_of};
ghost use Rattle.m88_board.specs.Contexts.{with_saved};
ghost use Rattle.m88_board.specs.Shown.{pointer_frame};

use crate::context::Saved;
use crate::serving::enter;
use m88_ctrl::{Control, cr};
use m88_iunit::InstrUnit;

/// The vector of an external interrupt.
const INTERRUPT: u16 = 1;

/// The interrupt is entered with nothing pending. Of a program that has ended its exception is returned from first, so
/// that its own status is saved.
pub(crate) fn leave(ctrl: &mut Control, iunit: &InstrUnit, has_ended: bool)
    ensures { ctrl.new
        ≡ entered (pointer_frame iunit.now) (if has_ended then returned ctrl.old else ctrl.old) }
{
    if has_ended {
        ctrl.rte();
    }
    enter(ctrl, iunit, INTERRUPT);
}

/// The registers, and the words that an exception saved.
pub(crate) fn saved_by(ctrl: &Control, regs: [u32; 32]) -> Saved
    ensures { result ≡ record {
      regs = regs;
      epsr = ctrl.now.epsr;
      sxip = ctrl.now.sxip;
      snip = ctrl.now.snip;
      sfip = ctrl.now.sfip;
    } }
{
    Saved {
        regs,
        epsr: read(ctrl, cr::EPSR),
        sxip: read(ctrl, cr::SXIP),
        snip: read(ctrl, cr::SNIP),
        sfip: read(ctrl, cr::SFIP),
    }
}

/// The control register of a number that there is.
fn read(ctrl: &Control, number: u8) -> u32
    requires { number ≤ 20 }
    ensures { slice_get (by_number ctrl.now) number ≡ Some result }
{
    match ctrl.ldcr(number) {
        Some(word) => word,
        None => unreachable!(),
    }
}

/// Puts the words of a program into the control registers, and returns by them.
pub(crate) fn come_back(ctrl: &mut Control, saved: &Saved) -> InstrUnit
    ensures control { ctrl.new ≡ returned (with_saved saved.now ctrl.old) }
    ensures slots { result ≡ record {
      xip = slot_of saved.now.sxip;
      nip = slot_of saved.now.snip;
      fip = slot_of saved.now.sfip;
    } }
{
    ctrl.stcr(cr::EPSR, saved.epsr);
    ctrl.stcr(cr::SXIP, saved.sxip);
    ctrl.stcr(cr::SNIP, saved.snip);
    ctrl.stcr(cr::SFIP, saved.sfip);
    let restart = ctrl.rte();
    InstrUnit::from_words(saved.sxip, restart.snip, restart.sfip)
}
