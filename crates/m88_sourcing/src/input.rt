//! The image that an input is, as S-records or as a binary, or its refusal.
ghost use Rattle.std.specs.Prelude.{◌≤◌, ℕ, IfErr, IfOk, List, Some, length};
ghost use Rattle.m88_base.specs.Outside.{GivesAll};
ghost use Rattle.m88_base.specs.Reading.{ReadsSource, most_input};
ghost use Rattle.m88_base.specs.Status.{IsOfReading};
ghost use Rattle.m88_sourcing.specs.Inside.Replies.{IsInputRead};

use crate::request::{Binary, Request};
use m88_base::{Image, ImageFault, NoMemory, Refusal, Source, Status, read_then};
use m88_srec::read_records;
use std::alloc::Global;

/// The image of the bytes of a binary, or their refusal.
fn binary_image(
    alloc: Global,
    binary: Binary,
    bytes: &[u8],
) -> Result<Result<Image, Refusal>, NoMemory>
    requires { length bytes.now ≤ most_input }
    ensures { IfOk result (IsInputRead (Some binary) bytes.now) }
{
    let mut image = Image::new(alloc);
    match image.add(binary.at, bytes) {
        Ok(()) => {
            image.set_start(binary.start);
            Ok(Ok(image))
        }
        Err(ImageFault::TooLarge) => {
            let reason = String::from_str(alloc, "too large")?;
            Ok(Err(Refusal::new(1, 1, reason)))
        }
        Err(ImageFault::Overlap(_)) => unreachable!(),
        Err(ImageFault::Memory) => Err(NoMemory),
    }
}

/// The image that a source gives as it is asked for, or its refusal.
pub(crate) fn read_input<S: Source>(
    alloc: Global,
    request: &Request,
    source: &mut S,
) -> Result<Result<Image, Refusal>, Status>
    ensures ok { IfOk result (λ input. (bytes : List ℕ)
        × GivesAll (S.left source.old) (S.left source.new) bytes
        × IsInputRead request.now.binary bytes input) }
    ensures reading { ReadsSource Status.SourceFault Status.TooLong S.left S.calls S.faults
        source.old source.new result }
    ensures status { IfErr result IsOfReading }
{
    match request.binary {
        None => Ok(read_records(alloc, source)?),
        Some(binary) => read_then(alloc, source, |bytes| binary_image(alloc, binary, bytes)),
    }
}
