//! The lines of an object text, one by one.
ghost use Rattle.std.specs.Prelude.{◌<◌, ◌^◌, length};
ghost use Rattle.m88_link.specs.Inside.Drafts.{GivesObjects, nothing_read, read_from};
ghost use Rattle.m88_link.specs.ObjectRead.{ended_lines};

use crate::object::Object;
use crate::object_fault::ObjectFault;
use crate::progress::Progress;
use m88_base::split_at_byte;
use std::alloc::Global;

/// The objects whose text this is, sound or not, or the first line that the text of no objects
/// continues.
pub fn parse_objects(alloc: Global, text: &[u8]) -> Result<Vec<Object>, ObjectFault>
    requires { length text.now < 2 ^ 31 }
    ensures { GivesObjects (λ v. v.items) result (read_from 1 nothing_read
        (ended_lines text.now)) }
{
    let mut progress = Progress::new(alloc);
    let mut rest = text;
    let mut number = 1;
    while !rest.is_empty() {
        let Some((line, behind)) = split_at_byte(b'\n', rest) else {
            return Err(ObjectFault::Form { line: number });
        };
        if !progress.line(line)? {
            return Err(ObjectFault::Form { line: number });
        }
        rest = behind;
        number += 1;
    }
    progress.finish(number)
}
