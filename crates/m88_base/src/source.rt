//! Where bytes come from.
ghost use Rattle.std.specs.Prelude.{ℕ, List, ◌<◌, length};
ghost use Rattle.std.specs.declared.option.Option.{Option};
ghost use Rattle.std.specs.Io.{ReadsAtMost};
ghost use Rattle.std.specs.Io.KnownBytes.{ReadConsumes};
ghost use Rattle.m88_base.specs.Calls.{CountsCall};
ghost use Rattle.m88_base.specs.Causes.{FailsByFault};

use crate::failing::Failed;

/// Bytes in order, read from the front by pieces.
pub trait Source {
    // The bytes still to come, where the source tells them.
    ghost left: { Self → Option (List ℕ) };

    // How often the source has failed, a count that never falls.
    ghost faults: { Self → ℕ };

    // How many calls were made, where the source tells it.
    ghost calls: { Self → Option ℕ };

    /// Reads the next bytes to the front of `buf` and says how many; 0 is the end.
    fn read(&mut self, buf: &mut [u8]) -> Result<usize, Failed>
        requires { 0 < length buf.old }
        ensures bound { ReadsAtMost result buf.new }
        ensures bytes { ReadConsumes (left self.old) (left self.new) result buf.new }
        ensures counted { CountsCall (calls self.old) (calls self.new) }
        ensures cause { FailsByFault (faults self.old) (faults self.new) result };
}
