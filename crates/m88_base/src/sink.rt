//! Where bytes go to.
ghost use Rattle.std.specs.Prelude.{ℕ, List, ◌<◌, ◌≤◌, length, IfOk};
ghost use Rattle.std.specs.declared.option.Option.{Option};
ghost use Rattle.std.specs.Io.KnownBytes.{WriteAppends};
ghost use Rattle.m88_base.specs.Calls.{CountsCall};
ghost use Rattle.m88_base.specs.Causes.{FailsByFault};

use crate::failing::Failed;

/// A place that takes bytes in order, by pieces.
pub trait Sink {
    // The bytes taken so far, where the sink tells them.
    ghost held: { Self → Option (List ℕ) };

    // How often the sink has failed, a count that never falls.
    ghost faults: { Self → ℕ };

    // How many calls were made, where the sink tells it.
    ghost calls: { Self → Option ℕ };

    /// Takes bytes from the front of `buf` and says how many, at least one.
    fn write(&mut self, buf: &[u8]) -> Result<usize, Failed>
        requires { 0 < length buf.now }
        ensures bound { IfOk result (λ count. (0 < count) × (count ≤ length buf.now)) }
        ensures bytes { WriteAppends (held self.old) (held self.new) result buf.now }
        ensures counted { CountsCall (calls self.old) (calls self.new) }
        ensures cause { FailsByFault (faults self.old) (faults self.new) result };
}
