//! What a source is made into, or its refusal.
ghost use Rattle.std.specs.Prelude.{◌≤◌, All, IfOk, MatchResult, length};
ghost use Rattle.m88_base.specs.Reading.{most_input};
ghost use Rattle.m88_link.specs.Sound.{IsSound};
ghost use Rattle.m88_asm.specs.Held.{HoldsUnit};
ghost use Rattle.m88_asm.specs.Sources.{AreSourceObjects, IsRefusedProgram, IsRefusedSource};

use crate::fault::UnitFault;
use crate::image::image_of;
use crate::objects::assemble;
use crate::source_fault::{unassembled, unlinked, unread};
use m88_base::{Image, NoMemory, Refusal};
use m88_link::Object;
use m88_parse::parse;
use std::alloc::Global;

/// The objects of a source of at most 1,048,576 bytes, or its refusal, at its first fault.
pub fn objects_of_source(
    alloc: Global,
    source: &[u8],
) -> Result<Result<Vec<Object>, Refusal>, NoMemory>
    requires { length source.now ≤ most_input }
    ensures objects { IfOk result (λ made. MatchResult made
        (λ objects. AreSourceObjects source.now objects.items) (IsRefusedSource 0 source.now)) }
    ensures sound { IfOk result (λ made. IfOk made (λ objects. All IsSound objects.items)) }
{
    let unit = match parse(alloc, source) {
        Ok(unit) => unit,
        Err(fault) => return Ok(Err(unread(alloc, 0, fault)?)),
    };
    match assemble(alloc, &unit) {
        Ok(objects) => Ok(Ok(objects)),
        Err(fault) => Ok(Err(unassembled(alloc, 0, fault)?)),
    }
}

/// The image of a source of at most 1,048,576 bytes behind so many lines of its input, none where it is the whole
/// input, assembled and linked; or its refusal, whose lines are counted from the first of the input.
pub fn image_of_source(
    alloc: Global,
    lines: u32,
    source: &[u8],
) -> Result<Result<Image, Refusal>, NoMemory>
    requires { length source.now ≤ most_input }
    ensures { IfOk result (λ made. MatchResult made
        (HoldsUnit source.now) (IsRefusedProgram lines source.now)) }
{
    let unit = match parse(alloc, source) {
        Ok(unit) => unit,
        Err(fault) => return Ok(Err(unread(alloc, lines, fault)?)),
    };
    match image_of(alloc, unit) {
        Ok(image) => Ok(Ok(image)),
        Err(UnitFault::Asm(fault)) => Ok(Err(unassembled(alloc, lines, fault)?)),
        Err(UnitFault::Link(fault)) => Ok(Err(unlinked(alloc, lines, fault)?)),
    }
}
