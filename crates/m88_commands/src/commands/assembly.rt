//! What `asm` and `build` make of a source.
ghost use Rattle.std.specs.Prelude.{◌≤◌, IfOk, length};
ghost use Rattle.m88_commands.specs.Command.{asm, build};
ghost use Rattle.m88_commands.specs.Limits.{most_input};
ghost use Rattle.m88_commands.specs.Reply.{Replies};

use m88_asm::{image_of_source, objects_of_source};
use m88_base::{NoMemory, Reply, accept, refuse};
use m88_link::object_text;
use m88_srec::write_srec;
use std::alloc::Global;

/// The reply of `asm` to a source.
pub fn assemble_source(alloc: Global, source: &[u8]) -> Result<Reply, NoMemory>
    requires { length source.now ≤ most_input }
    ensures { IfOk result (Replies asm source.now) }
{
    let objects = match objects_of_source(alloc, source)? {
        Ok(objects) => objects,
        Err(refusal) => return refuse(alloc, &refusal),
    };
    let text = object_text(alloc, objects.as_slice())?;
    Ok(accept(text))
}

/// The reply of `build` to a source.
pub fn build_source(alloc: Global, source: &[u8]) -> Result<Reply, NoMemory>
    requires { length source.now ≤ most_input }
    ensures { IfOk result (Replies build source.now) }
{
    let image = match image_of_source(alloc, 0, source)? {
        Ok(image) => image,
        Err(refusal) => return refuse(alloc, &refusal),
    };
    let text = write_srec(alloc, &image)?;
    Ok(accept(text))
}
