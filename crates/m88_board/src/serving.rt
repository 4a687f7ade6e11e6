//! The monitor's service: of a data fault, and of its trap.

ghost use Rattle.std.specs.Prelude.{◌≡◌, ◌<◌};
ghost use Rattle.std.specs.Int.{bit_at};
ghost use Rattle.m88_ctrl.specs.ControlRegisters.{entered, mxm_of, returned};
ghost use Rattle.m88_board.specs.Inside.Accesses.{FinishesAll};
ghost use Rattle.m88_board.specs.Kept.{PartsAgree};
ghost use Rattle.m88_board.specs.Shown.{pointer_frame};

use m88_base::NO_TRIPLE;
use m88_ctrl::{Control, Frame, Restart};
use m88_dunit::DataUnit;
use m88_event::Record;
use m88_isa::{DATA_ACCESS, MONITOR_TRAP};
use m88_iunit::InstrUnit;
use m88_mem::Memory;
use m88_monitor::serve;
use m88_scoreboard::RegFile;

/// What an exception saves of a record.
pub(crate) fn frame_of(fault: &Record) -> Frame
    ensures { result ≡ record {
      ssbr = fault.now.ssbr;
      sxip = fault.now.sxip;
      snip = fault.now.snip;
      sfip = fault.now.sfip;
      triples = fault.now.triples;
    } }
{
    Frame {
        ssbr: fault.ssbr,
        sxip: fault.sxip,
        snip: fault.snip,
        sfip: fault.sfip,
        triples: fault.triples,
    }
}

/// The pending transactions leave the data unit for the control registers, an exception is entered, the monitor
/// finishes them and returns. The answer is how many there were, and what execution goes on by.
pub(crate) fn serve_all(
    fault: Record,
    unit: &mut DataUnit,
    ctrl: &mut Control,
    regs: &mut RegFile,
    memory: &mut Memory,
) -> (u8, Restart)
    requires ssbr { bit_at fault.ssbr 0 ≡ 0 }
    requires agree { PartsAgree unit.old regs.old memory.old }
    ensures { FinishesAll fault unit.old ctrl.old regs.old memory.old result.0 result.1
        unit.new ctrl.new regs.new memory.new }
{
    let triples = unit.freeze();
    let frame = Frame {
        triples,
        ..frame_of(&fault)
    };
    ctrl.enter(DATA_ACCESS, &frame);
    regs.restore(0);
    let served = serve(ctrl, regs, memory);
    let restart = ctrl.rte();
    (served.done, restart)
}

/// The exception of a vector is entered with nothing pending: it saves the instruction pointers.
pub(crate) fn enter(ctrl: &mut Control, iunit: &InstrUnit, vector: u16)
    requires { vector < 512 }
    ensures state { ctrl.new ≡ entered (pointer_frame iunit.now) ctrl.old }
    ensures mxm { mxm_of ctrl.new ≡ mxm_of ctrl.old }
{
    let (sxip, snip, sfip) = iunit.shadow();
    let frame = Frame {
        ssbr: 0,
        sxip,
        snip,
        sfip,
        triples: [NO_TRIPLE; 3],
    };
    ctrl.enter(vector, &frame);
}

/// The monitor is entered by its trap, with nothing pending, and returns at once.
pub(crate) fn visit(ctrl: &mut Control, iunit: &InstrUnit)
    ensures { ctrl.new ≡ returned (entered (pointer_frame iunit.now) ctrl.old) }
{
    enter(ctrl, iunit, MONITOR_TRAP);
    ctrl.rte();
}
