//! An image read from a source whose text is not kept.
ghost use Rattle.std.specs.Prelude.{◌≡◌, ◌≢◌, ◌+◌, ◌^◌, ◌<◌, ◌≤◌, Err, IfErr, IfOk, length};
ghost use Rattle.m88_base.specs.Calls.{CallsWithin};
ghost use Rattle.m88_base.specs.Causes.{Rose};
ghost use Rattle.m88_base.specs.Outside.{TakesAtMost, TakesExactly};
ghost use Rattle.m88_srec.specs.Accepted.{IsAccepted, whole_of};
ghost use Rattle.m88_srec.specs.Inside.Streams.{EndsText, TakesFed};
ghost use Rattle.m88_srec.specs.Streamed.{OnText, ReadsText, WhereRefused};
ghost use Rattle.m88_srec.specs.Verdict.{IsFirstSrecFault};

use crate::fault::{SrecFault, SrecKind};
use crate::load_end::LoadEnd;
use crate::loader::Loader;
use m88_base::{Failed, Image, NoMemory, Source};
use std::alloc::Global;

/// The most bytes that are read in one call.
const MOST_PIECE: usize = 4096;

/// Feeds a loader a piece more. A fault of the text is kept there, and the text is read on.
fn feed_piece(loader: &mut Loader, piece: &[u8]) -> Result<(), NoMemory>
    requires { loader.old.total + length piece.now < 2 ^ 31 }
    ensures { TakesFed piece.now loader.old loader.new }
{
    match loader.feed(piece) {
        Err(
            SrecFault {
                kind: SrecKind::Memory,
                ..
            },
        ) => Err(NoMemory),
        _ => Ok(()),
    }
}

/// The image of a text that was fed to its end.
fn image_at_end(loader: Loader) -> Result<Image, LoadEnd>
    ensures { EndsText loader result }
{
    match loader.finish() {
        Ok(image) => Ok(image),
        Err(fault) if fault.kind == SrecKind::Memory => Err(LoadEnd::Memory),
        Err(fault) => Err(LoadEnd::Refused(fault)),
    }
}

/// The image that the text of a source writes, at most `max` bytes; one more is taken to find out that there are too
/// many. A fault of the text is told once the source was read to its end. The text is not kept.
#[tactic(auto, using(m88_base::proofs::Laws::calls_more, m88_base::proofs::Laws::calls_none))]
pub fn read_image<S: Source>(alloc: Global, source: &mut S, max: usize) -> Result<Image, LoadEnd>
    requires { max < 2 ^ 31 }
    ensures ok { IfOk result (λ image. ReadsText (S.left source.old) (S.left source.new) max
        (λ text. IsAccepted text (whole_of image))) }
    ensures refused { IfErr result (WhereRefused (λ fault. ReadsText (S.left source.old)
        (S.left source.new) max (λ text. IsFirstSrecFault text fault))) }
    ensures too_long { result ≡ Err LoadEnd.TooLong
        → TakesExactly (S.left source.old) (S.left source.new) (max + 1) }
    ensures short { result ≢ Err LoadEnd.TooLong
        → TakesAtMost (S.left source.old) (S.left source.new) max }
    ensures grows { S.faults source.old ≤ S.faults source.new }
    ensures calls { CallsWithin (max + 2) (S.calls source.old) (S.calls source.new) }
    ensures clean { OnText result (S.faults source.new ≡ S.faults source.old) }
    ensures fault { result ≡ Err LoadEnd.SourceFault
        → Rose (S.faults source.old) (S.faults source.new) }
{
    let mut loader = Loader::new(alloc);
    let mut taken = 0;
    let mut buf = [0u8; MOST_PIECE];
    for _ in 0..max + 2 {
        let most = (max + 1 - taken).min(MOST_PIECE);
        match source.read(&mut buf[..most]) {
            Ok(0) => return image_at_end(loader),
            Ok(count) => {
                if count > max - taken {
                    return Err(LoadEnd::TooLong);
                }
                if let Err(NoMemory) = feed_piece(&mut loader, &buf[..count]) {
                    return Err(LoadEnd::Memory);
                }
                taken += count;
            }
            Err(Failed) => return Err(LoadEnd::SourceFault),
        }
    }
    unreachable!()
}
