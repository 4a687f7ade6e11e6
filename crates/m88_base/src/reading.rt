//! A whole source in memory.
ghost use Rattle.std.specs.Prelude.{◌≡◌, ◌≢◌, ◌+◌, ◌^◌, ◌<◌, ◌≤◌, Err, IfOk, OnOk, vec_len};
ghost use Rattle.std.specs.Io.KnownBytes.{Consumes, IsAtEnd};
ghost use Rattle.m88_base.specs.Calls.{CallsWithin};
ghost use Rattle.m88_base.specs.Causes.{Rose};
ghost use Rattle.m88_base.specs.Outside.{TakesExactly, TakesAtMost};

use crate::failing::{Failed, NoMemory};
use crate::source::Source;
use std::alloc::{AllocError, Global};
use thiserror::Error;

/// The most bytes that the input of a program may have: one mebibyte.
pub const MOST_INPUT: usize = 1_048_576;

/// Why a source was not read to its end.
#[derive(Clone, Copy, PartialEq, Eq, Debug, Error)]
pub enum ReadEnd {
    /// The source failed.
    #[error("the source failed")]
    SourceFault,
    /// The source has more bytes than were allowed.
    #[error("the source is too long")]
    TooLong,
    /// There was no memory for the bytes.
    #[error("memory ran out")]
    Memory,
}

impl From<AllocError> for ReadEnd {
    ghost use Rattle.std.specs.Prelude.{◌≡◌};
    ghost use Rattle.m88_base.specs.declared.reading.ReadEnd.TheVariants as read_end;

    ghost from_gives = { λ _ end. end ≡ read_end.Memory };

    fn from(_: AllocError) -> ReadEnd {
        ReadEnd::Memory
    }
}

impl From<NoMemory> for ReadEnd {
    ghost use Rattle.std.specs.Prelude.{◌≡◌};
    ghost use Rattle.m88_base.specs.declared.reading.ReadEnd.TheVariants as read_end;

    ghost from_gives = { λ _ end. end ≡ read_end.Memory };

    fn from(_: NoMemory) -> ReadEnd {
        ReadEnd::Memory
    }
}

/// All bytes of a source up to its end, `max` at most; one more is taken to find out that there
/// are too many.
#[tactic(auto, using(crate::proofs::Calls::calls_more, crate::proofs::Calls::calls_none))]
pub fn read_all<S: Source>(alloc: Global, source: &mut S, max: usize) -> Result<Vec<u8>, ReadEnd>
    requires { max < 2 ^ 31 }
    ensures ok { IfOk result (λ bytes. Consumes (S.left source.old) (S.left source.new) bytes.items
        × IsAtEnd (S.left source.new) × (vec_len bytes ≤ max)) }
    ensures too_long { result ≡ Err ReadEnd.TooLong
        → TakesExactly (S.left source.old) (S.left source.new) (max + 1) }
    ensures short { result ≢ Err ReadEnd.TooLong
        → TakesAtMost (S.left source.old) (S.left source.new) max }
    ensures grows { S.faults source.old ≤ S.faults source.new }
    ensures calls { CallsWithin (max + 2) (S.calls source.old) (S.calls source.new) }
    ensures clean { OnOk result (S.faults source.new ≡ S.faults source.old) }
    ensures fault { result ≡ Err ReadEnd.SourceFault
        → Rose (S.faults source.old) (S.faults source.new) }
{
    let mut bytes = Vec::new(alloc);
    let mut buf = [0u8; 4096];
    for _ in 0..max + 2 {
        let most = (max + 1 - bytes.len()).min(4096);
        match source.read(&mut buf[..most]) {
            Ok(0) => return Ok(bytes),
            Ok(count) => {
                if count > max - bytes.len() {
                    return Err(ReadEnd::TooLong);
                }
                bytes.extend_from_slice(&buf[..count])?;
            }
            Err(Failed) => return Err(ReadEnd::SourceFault),
        }
    }
    unreachable!()
}
