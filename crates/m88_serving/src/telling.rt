//! The data fault that an input tells, judged.
ghost use Rattle.std.specs.Prelude.{◌≡◌, IfErr, IfOk, None, Ok};
ghost use Rattle.m88_mem.specs.DataBus.{image_bus};
ghost use Rattle.m88_serving.specs.Faults.{record_fault};
ghost use Rattle.m88_serving.specs.Serving.{named_bus};
ghost use Rattle.m88_serving.specs.Told.{IsUntold, case_told};
ghost use Rattle.m88_serving.specs.Verdict.{serve_verdict};

use crate::fault::{ServeFault, ServeKind};
use crate::judging::record_fault;
use crate::naming::{Naming, name_all};
use crate::reading::{Told, Unread, told_in};
use m88_base::{Image, NoMemory};
use m88_event::Record;
use std::alloc::Global;

/// A data fault that is accepted.
#[derive(Drop)]
pub struct ToldCase {
    /// The record, whose event isn't told and counts as 0.
    pub fault: Record,
    /// The words of data memory that are named, each with its byte address, a multiple of 4, in order of their lines.
    pub words: Vec<(u32, u32)>,
    /// The same words as an image, which has no other byte.
    pub image: Image,
}

/// Why an input tells no data fault that is accepted.
#[derive(Clone, Copy)]
pub enum Untold {
    /// It is refused.
    Refused(ServeFault),
    /// There was no memory for its words.
    Memory,
}

/// The data fault that the lines of an input tell, or why it is refused.
pub fn told_case(alloc: Global, input: &[u8]) -> Result<ToldCase, Untold>
    ensures ok { IfOk result (λ told. serve_verdict input.now ≡ Ok (case_told told)) }
    ensures refused { IfErr result (IsUntold input.now) }
    ensures fault { IfOk result (λ told. record_fault told.fault ≡ None) }
    ensures image { IfOk result (λ told. image_bus told.image ≡ named_bus told.words.items) }
{
    let Told { fault, words } = match told_in(alloc, input) {
        Ok(told) => told,
        Err(Unread::Form(line)) => return Err(refused(line, ServeKind::Form)),
        Err(Unread::Memory) => return Err(Untold::Memory),
    };
    if let Some(fault) = record_fault(&fault) {
        return Err(Untold::Refused(fault));
    }
    match name_all(alloc, words.as_slice()) {
        Ok(Naming::Named(image)) => Ok(ToldCase {
            fault,
            words,
            image,
        }),
        Ok(Naming::Twice(line)) => Err(refused(line, ServeKind::Twice)),
        Err(NoMemory) => Err(Untold::Memory),
    }
}

/// A refusal at a line for a reason.
fn refused(line: u64, kind: ServeKind) -> Untold
    ensures { result ≡ Untold.Refused (record { line = line; kind = kind }) }
{
    Untold::Refused(ServeFault { line, kind })
}
