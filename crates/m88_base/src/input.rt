//! What is made of the whole input of a program.
ghost use Rattle.std.specs.Prelude.{◌≤◌, ℕ, IfErr, IfOk, List, Ok, length};
ghost use Rattle.std.specs.Fn.{FnOnceReturnsAt};
ghost use Rattle.m88_base.specs.Outside.{GivesAll};
ghost use Rattle.m88_base.specs.Reading.{ReadsSource, most_input};
ghost use Rattle.m88_base.specs.Status.{IsOfReading};

use crate::failing::NoMemory;
use crate::reading::{MOST_INPUT, read_all};
use crate::source::Source;
use crate::status::Status;
use std::alloc::Global;

/// What `make` makes of all bytes that a source gives up to its end, MOST_INPUT at most, or why it made nothing.
pub fn read_then<S: Source, T, F: FnOnce(&[u8]) -> Result<T, NoMemory>>(
    alloc: Global,
    source: &mut S,
    make: F,
) -> Result<T, Status>
    requires { (bytes : _) → length bytes.now ≤ most_input → F.pre make bytes }
    ensures ok { IfOk result (λ made. (bytes : List ℕ)
        × GivesAll (S.left source.old) (S.left source.new) bytes
        × (length bytes ≤ most_input)
        × FnOnceReturnsAt F.FnOnce make bytes (Ok made)) }
    ensures reading { ReadsSource Status.SourceFault Status.TooLong S.left S.calls S.faults
        source.old source.new result }
    ensures status { IfErr result IsOfReading }
{
    let bytes = read_all(alloc, source, MOST_INPUT)?;
    let made = make(bytes.as_slice())?;
    Ok(made)
}
