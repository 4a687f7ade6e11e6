//! Bytes handed to a sink whole.
ghost use Rattle.std.specs.Prelude.{◌≡◌, ◌<◌, ◌≤◌, take, length, OnOk, OnErr, IfErr};
ghost use Rattle.std.specs.Io.KnownBytes.{Appends};
ghost use Rattle.m88_base.specs.Calls.{CallsWithin};
ghost use Rattle.m88_base.specs.Causes.{Rose};
ghost use Rattle.m88_base.specs.Outside.{AppendsPart};

use crate::failing::Failed;
use crate::sink::Sink;
use thiserror::Error;

/// A sink failed before it had taken all bytes.
#[derive(Clone, Copy, PartialEq, Eq, Debug, Error)]
#[error("the sink failed after {written} bytes")]
pub struct SinkFault {
    /// The number of bytes from the front that were taken.
    pub written: usize,
}

/// Hands all bytes to a sink, piece by piece.
#[tactic(auto, using(crate::proofs::Calls::calls_more, crate::proofs::Calls::calls_none))]
pub fn write_all<K: Sink>(sink: &mut K, bytes: &[u8]) -> Result<(), SinkFault>
    ensures ok { OnOk result (Appends (K.held sink.old) (K.held sink.new) bytes.now) }
    ensures prefix { IfErr result (λ fault.
        Appends (K.held sink.old) (K.held sink.new) (take fault.written bytes.now)) }
    ensures short { IfErr result (λ fault. fault.written < length bytes.now) }

    // The clauses prefix and short once more, for a caller that only asks whether the sink failed.
    ensures part { OnErr result (AppendsPart (K.held sink.old) (K.held sink.new) bytes.now) }

    ensures grows { K.faults sink.old ≤ K.faults sink.new }
    ensures calls { CallsWithin (length bytes.now) (K.calls sink.old) (K.calls sink.new) }
    ensures clean { OnOk result (K.faults sink.new ≡ K.faults sink.old) }
    ensures fault { OnErr result (Rose (K.faults sink.old) (K.faults sink.new)) }
{
    let mut written = 0;
    while written < bytes.len() {
        match sink.write(&bytes[written..]) {
            Ok(count) => written += count,
            Err(Failed) => return Err(SinkFault { written }),
        }
    }
    Ok(())
}
