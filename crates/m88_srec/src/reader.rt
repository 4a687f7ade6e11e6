//! S-record texts read.
ghost use Rattle.std.specs.Prelude.{◌≡◌, ◌<◌, ◌^◌, ◌↔◌, length, IfOk, MatchResult, Ok};
ghost use Rattle.m88_base.specs.OneVerdict.{HasOneVerdict};
ghost use Rattle.m88_srec.specs.Accepted.{IsAccepted, Whole, whole_of};
ghost use Rattle.m88_srec.specs.GivesVerdict.{GivesVerdict, no_memory};
ghost use Rattle.m88_srec.specs.Verdict.{IsFirstSrecFault, verdict};

use crate::fault::SrecFault;
use crate::loader::Loader;
use m88_base::Image;
use std::alloc::Global;

/// What a loader makes of a text in one piece.
fn read(alloc: Global, text: &[u8]) -> Result<Image, SrecFault>
    requires { length text.now < 2 ^ 31 }
    ensures { GivesVerdict whole_of result (verdict text.now) }
{
    let mut loader = Loader::new(alloc);
    loader.feed(text)?;
    loader.finish()
}

/// The image that an S-record text writes, with its start address, or the first fault of the text.
pub fn read_srec(alloc: Global, text: &[u8]) -> Result<Image, SrecFault>
    requires { length text.now < 2 ^ 31 }

    // What the lines of the text come to, or the first fault of the first line that has one.
    ensures value { GivesVerdict whole_of result (verdict text.now) }

    // The texts that are taken are exactly those of the format.
    ensures accepted { IfOk result (λ image. IsAccepted text.now (whole_of image)) }
    ensures only { (whole : Whole) → IsAccepted text.now whole
        → MatchResult result (λ image. whole_of image ≡ whole) (λ fault. fault ≡ no_memory) }

    // A text is accepted or has a first fault, never both, and one at most; it is accepted where its verdict
    // is what it writes.
    ensures one_verdict { HasOneVerdict (IsAccepted text.now) (IsFirstSrecFault text.now) }
    ensures law { (whole : Whole) → IsAccepted text.now whole ↔ (verdict text.now ≡ Ok whole) }
{
    read(alloc, text)
}
