//! What a data fault leaves in the control registers.
ghost use Rattle.std.specs.Prelude.{◌≡◌, None};
ghost use Rattle.m88_serving.specs.Faults.{record_fault};
ghost use Rattle.m88_serving.specs.Serving.{control_left};

use m88_ctrl::{Control, Frame, cr};
use m88_event::Record;
use m88_isa::DATA_ACCESS;

/// The control registers that the exception of a data fault leaves with its record; those that no record tells are as at
/// the start.
pub fn control_left(fault: &Record) -> Control
    requires { record_fault fault.now ≡ None }
    ensures { result ≡ control_left fault.now }
{
    let mut ctrl = Control::new(false);
    if !ctrl.stcr(cr::PSR, fault.epsr) {
        unreachable!();
    }
    let frame = Frame {
        ssbr: fault.ssbr,
        sxip: fault.sxip,
        snip: fault.snip,
        sfip: fault.sfip,
        triples: fault.triples,
    };
    ctrl.enter(DATA_ACCESS, &frame);
    ctrl
}
