//! What a program makes of S-records that it reads.
ghost use Rattle.std.specs.Prelude.{◌≡◌, ℕ, IfOk, List};
ghost use Rattle.m88_base.specs.Outside.{GivesAll};
ghost use Rattle.m88_base.specs.Reading.{ReadsSource};
ghost use Rattle.m88_srec.specs.Refused.{AreRecordsOf, srec_refusal};

use crate::fault::SrecFault;
use crate::load_end::LoadEnd;
use crate::stream::read_image;
use m88_base::{Image, MOST_INPUT, NoMemory, ReadEnd, Refusal, Source};
use std::alloc::Global;

/// The image that a source writes as S-records, MOST_INPUT bytes at most, or the refusal of their text, told at column
/// 1 of the line of its first fault; or why the source was not read to its end. The text is not kept.
pub fn read_records<S: Source>(
    alloc: Global,
    source: &mut S,
) -> Result<Result<Image, Refusal>, ReadEnd>
    ensures ok { IfOk result (λ records. (text : List ℕ)
        × GivesAll (S.left source.old) (S.left source.new) text × AreRecordsOf records text) }
    ensures reading { ReadsSource ReadEnd.SourceFault ReadEnd.TooLong S.left S.calls S.faults
        source.old source.new result }
{
    match read_image(alloc, source, MOST_INPUT) {
        Ok(image) => Ok(Ok(image)),
        Err(LoadEnd::Refused(fault)) => {
            let refusal = refusal_of(alloc, &fault)?;
            Ok(Err(refusal))
        }
        Err(LoadEnd::SourceFault) => Err(ReadEnd::SourceFault),
        Err(LoadEnd::TooLong) => Err(ReadEnd::TooLong),
        Err(LoadEnd::Memory) => Err(ReadEnd::Memory),
    }
}

/// The refusal of a text for a fault.
fn refusal_of(alloc: Global, fault: &SrecFault) -> Result<Refusal, NoMemory>
    ensures { IfOk result (λ refusal. refusal ≡ srec_refusal fault.now) }
{
    let reason = fault.kind.to_string(alloc)?;
    Ok(Refusal::new(u64::from(fault.line), 1, reason))
}
