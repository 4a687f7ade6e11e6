//! What stands before the line `handler`.
ghost use Rattle.std.specs.Prelude.{◌≡◌, ◌≤◌, IfErr, IfOk, Ok, length};
ghost use Rattle.m88_base.specs.Lines.{lines_of};
ghost use Rattle.m88_base.specs.Reading.{most_input};
ghost use Rattle.m88_entries.specs.Told.{told_verdict};
ghost use Rattle.m88_entries.specs.ToldFaults.{IsUntoldAt, IsUsable, told_by};

use crate::registers::{UnreadLine, given_by, registers_told};
use crate::splitting::parts_of;
use m88_serving::{ServeFault, ServeKind, ToldCase, Untold, told_case};
use std::alloc::Global;

/// A data fault with the registers.
#[derive(Drop)]
pub struct ToldFault {
    pub case: ToldCase,
    /// r0 to r31, 0 where none is told.
    pub given: [u32; 32],
}

/// The data fault with registers that lines tell, or why they are refused.
#[tactic(auto, unfolding(crate::specs::Told::told_verdict))]
pub fn told_fault(alloc: Global, before: &[u8]) -> Result<ToldFault, Untold>
    requires { length before.now ≤ most_input }
    ensures ok { IfOk result (λ told. told_verdict (lines_of before.now) ≡ Ok (told_by told)) }
    ensures refused { IfErr result (IsUntoldAt (told_verdict (lines_of before.now))) }
    ensures usable { IfOk result IsUsable }
{
    let parts = parts_of(before);
    let case = told_case(alloc, parts.front)?;
    let first = parts.lines + 1;
    let words = match registers_told(alloc, parts.rest, first) {
        Ok(words) => words,
        Err(UnreadLine::Form(line)) => return Err(refused(line, ServeKind::Form)),
        Err(UnreadLine::Memory) => return Err(Untold::Memory),
    };
    match given_by(words.as_slice(), first) {
        Ok(given) => Ok(ToldFault { case, given }),
        Err(line) => Err(refused(line, ServeKind::Twice)),
    }
}

/// A refusal at a line for a reason.
fn refused(line: u64, kind: ServeKind) -> Untold
    ensures { result ≡ Untold.Refused (record { line = line; kind = kind }) }
{
    Untold::Refused(ServeFault { line, kind })
}
