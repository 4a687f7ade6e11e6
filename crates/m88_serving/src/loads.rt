//! The registers that the transactions of a record load.
ghost use Rattle.std.specs.Prelude.{◌≡◌};
ghost use Rattle.m88_scoreboard.specs.Registers.{waiting_of};
ghost use Rattle.m88_serving.specs.Faults.{awaited_set};
ghost use Rattle.m88_serving.specs.Inside.Loads.{with_load};

use m88_base::Triple;
use m88_event::Record;
use m88_isa::{access_in, is_valid_triple};
use m88_scoreboard::RegFile;

/// The set of the registers that the valid transactions of a record load, a bit for each, r0 left out.
#[tactic(auto, using(crate::proofs::Marked::loads_all))]
pub(crate) fn awaited_set(fault: &Record) -> u32
    ensures { result ≡ awaited_set fault.now }
{
    let [t0, t1, t2] = &fault.triples;
    let mut waiting = RegFile::new();
    mark(&mut waiting, t2);
    mark(&mut waiting, t1);
    mark(&mut waiting, t0);
    waiting.busy()
}

/// Marks the register that a transaction loads, if it is a valid load.
fn mark(waiting: &mut RegFile, triple: &Triple)
    ensures { waiting_of waiting.new ≡ with_load triple.now (waiting_of waiting.old) }
{
    if !is_valid_triple(triple) {
        return;
    }
    let access = access_in(triple);
    if !access.write {
        waiting.mark(access.reg);
    }
}
