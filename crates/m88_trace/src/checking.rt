//! A text against the trace of a program.

ghost use Rattle.std.specs.Prelude.{ℕ, List, MatchOption, ◌≡◌, ◌≢◌, ◌<◌, ◌^◌, ◌++◌, false, length, IfErr, IfOk};
ghost use Rattle.m88_base.specs.OneVerdict.{HasOneVerdict};
ghost use Rattle.m88_isa.specs.ImageProgram.{IsProgramOf};
ghost use Rattle.m88_isa.specs.Machine.{Program};
ghost use Rattle.m88_trace.specs.Texts.{DiffersBehind, FaultOf, IsText};
ghost use Rattle.m88_trace.specs.Trace.{trace_line};

use crate::fault::TraceFault;
use crate::follower::Follower;
use m88_base::Image;
use std::alloc::Global;

/// How many lines a text has, where it is the first lines of the trace of an image's program, with MXM clear; the line
/// of the end counts. It is shorter than 2^31 bytes. Otherwise the first line that isn't the trace's. It makes no run
/// on a board: it follows the program's registers and memory.
pub fn check_trace(alloc: Global, image: &Image, text: &[u8]) -> Result<u32, TraceFault>
    requires { length text.now < 2 ^ 31 }
    ensures ok { IfOk result (λ lines. (p : Program) → IsProgramOf image.now p → p.mxm ≡ false
        → IsText (trace_line p) text.now lines) }
    ensures fault { IfErr result (λ fault. (p : Program) → IsProgramOf image.now p → p.mxm ≡ false
        → FaultOf (trace_line p) text.now fault) }
    ensures program { (p : Program) × IsProgramOf image.now p × (p.mxm ≡ false) }
    ensures one_verdict { (p : Program)
        → HasOneVerdict (IsText (trace_line p) text.now) (DiffersBehind (trace_line p) text.now) }
{
    // What always holds of an image is told with its parts.
    prove!(image.part_count() <= image.len());
    let mut follower = Follower::new(alloc, image)?;
    let mut line = Vec::new(alloc);
    let mut rest = text;
    let mut count = 0;
    let mut ended = false;
    while !rest.is_empty() {
        if ended {
            return Err(TraceFault::Differs { line: count + 1 });
        }
        ended = follower.next_line(count, &mut line)?;
        let Some(more) = behind(rest, &line) else {
            return Err(TraceFault::Differs { line: count + 1 });
        };
        rest = more;
        count += 1;
    }
    Ok(count)
}

/// What stands behind a line, where a text begins with it.
fn behind<'a>(text: &'a [u8], line: &[u8]) -> Option<&'a [u8]>
    ensures { MatchOption result ((more : List ℕ) → text.now ≢ line.now ++ more)
        (λ more. text.now ≡ line.now ++ more.now) }
{
    text.strip_prefix(line)
}
