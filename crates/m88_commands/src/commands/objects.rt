//! What `link` makes of the text of objects.
ghost use Rattle.std.specs.Prelude.{◌≡◌, ◌≤◌, All, IfOk, MatchResult, length};
ghost use Rattle.m88_link.specs.ObjectRead.{IsSoundText};
ghost use Rattle.m88_link.specs.Reasons.{object_reason};
ghost use Rattle.m88_link.specs.Sound.{IsSound};
ghost use Rattle.m88_commands.specs.Command.{link as link_command};
ghost use Rattle.m88_commands.specs.Limits.{most_input};
ghost use Rattle.m88_asm.specs.LinkedTexts.{IsRefusedObjects};
ghost use Rattle.m88_commands.specs.Reply.{Replies};

use m88_asm::unlinked;
use m88_base::{NoMemory, Refusal, Reply, accept, refuse};
use m88_link::{Object, ObjectFault, link, read_objects};
use m88_srec::write_srec;
use std::alloc::Global;

/// The reply of `link` to a text of objects.
pub fn link_objects(alloc: Global, text: &[u8]) -> Result<Reply, NoMemory>
    requires { length text.now ≤ most_input }
    ensures { IfOk result (Replies link_command text.now) }
{
    let objects = match objects_in(alloc, text)? {
        Ok(objects) => objects,
        Err(refusal) => return refuse(alloc, &refusal),
    };
    let image = match link(alloc, objects.as_slice()) {
        Ok(image) => image,
        Err(fault) => return refuse(alloc, &unlinked(alloc, 0, fault)?),
    };
    let records = write_srec(alloc, &image)?;
    Ok(accept(records))
}

/// The objects of a text, or the refusal of one that is none of sound objects.
fn objects_in(alloc: Global, text: &[u8]) -> Result<Result<Vec<Object>, Refusal>, NoMemory>
    requires { length text.now ≤ most_input }
    ensures objects { IfOk result (λ read. MatchResult read
        (λ objects. IsSoundText objects.items text.now) (IsRefusedObjects text.now)) }
    ensures sound { IfOk result (λ read. IfOk read (λ objects. All IsSound objects.items)) }
{
    match read_objects(alloc, text) {
        Ok(objects) => Ok(Ok(objects)),
        Err(ObjectFault::Memory) => Err(NoMemory),
        Err(ObjectFault::Form { line }) => {
            Ok(Err(refusal_at(alloc, line, ObjectFault::Form { line })?))
        }
        Err(ObjectFault::Range { line }) => {
            Ok(Err(refusal_at(alloc, line, ObjectFault::Range { line })?))
        }
    }
}

/// The refusal at a line in the words of a fault.
fn refusal_at(alloc: Global, line: u32, fault: ObjectFault) -> Result<Refusal, NoMemory>
    ensures { IfOk result (λ r.
        r ≡ record { line = line; column = 1; reason = object_reason fault }) }
{
    let reason = String::from_str(alloc, fault.reason())?;
    Ok(Refusal::new(u64::from(line), 1, reason))
}
