//! What `dis` makes of S-records.
ghost use Rattle.std.specs.Prelude.{ℕ, IfOk, List};
ghost use Rattle.m88_srec.specs.Refused.{AreRecordsOf};
ghost use Rattle.m88_commands.specs.Command.{dis};
ghost use Rattle.m88_commands.specs.Reply.{Replies};

use m88_base::{Image, NoMemory, Refusal, Reply, accept, refuse};
use m88_disasm::listing;
use std::alloc::Global;

/// The reply of `dis` to S-records, from the image that they write or their refusal.
pub fn list_records(alloc: Global, records: &Result<Image, Refusal>) -> Result<Reply, NoMemory>
    ensures { (text : List ℕ) → AreRecordsOf records.now text → IfOk result (Replies dis text) }
{
    let image = match records {
        Ok(image) => image,
        Err(refusal) => return refuse(alloc, refusal),
    };
    // What always holds of an image is told with its parts.
    prove!(image.part_count() <= image.len());
    let text = listing(alloc, image)?;
    Ok(accept(text))
}
