//! The top call.
ghost use Rattle.std.specs.Prelude.{◌≡◌, ◌<◌, ◌≤◌, IfOk, length};
ghost use Rattle.m88_base.specs.Filter.{AnswersUnfailed, Filters, IsInputLeft, TellsRefused};
ghost use Rattle.m88_base.specs.Reading.{most_input};
ghost use Rattle.m88_base.specs.Reply.{ShowsLineOf};
ghost use Rattle.m88_asm.specs.Sources.{IsProgramSource};
ghost use Rattle.m88_listing.specs.Answer.{ListsRefused};
ghost use Rattle.m88_listing.specs.Laws.{ListingLaws};
ghost use Rattle.m88_listing.specs.Listing.{ListsAccepted};
ghost use Rattle.m88_listing.specs.Told.{IsToldOf};
ghost use Rattle.m88_listing.specs.Inside.Replies.{ListsAs};

use crate::listing::reply_to;
use m88_base::{Answer, NoMemory, Reply, Sink, Source, Status, read_then};
use std::alloc::Global;

/// The whole program between its words, of which none are taken, a source and a sink: the source is read to its end,
/// and the sink is given its listing, or the text that refuses it.
pub fn m88list<S: Source, K: Sink>(
    alloc: Global,
    words: &[String],
    source: &mut S,
    sink: &mut K,
) -> Status
    // Any word is one too many: Usage. A source that is read to its end and accepted is listed: Done. One that is
    // refused is answered by the text that says so: Refused.
    ensures filters { Filters S.left S.calls S.faults K.held K.calls K.faults source.old source.new sink.old sink.new
        (0 < length words.now) ListsAccepted ListsRefused result }

    // Without words, and where nothing failed, a source that is not too long is answered: Done if it is
    // accepted, Refused if it is not, or Memory.
    ensures complete { length words.now ≡ 0
        → AnswersUnfailed S.faults K.faults source.old source.new sink.old sink.new
        (IsInputLeft (S.left source.old)) IsProgramSource result }

    // A source has one verdict and one text. Its listing shows the image, and each line once.
    ensures laws { ListingLaws }
{
    list_source(alloc, words, source, sink).status
}

/// The same program, which also answers where and why the source is refused, and the line there.
pub fn list_source<S: Source, K: Sink>(
    alloc: Global,
    words: &[String],
    source: &mut S,
    sink: &mut K,
) -> Answer
    // What `m88list` promises of the status.
    ensures filters { Filters S.left S.calls S.faults K.held K.calls K.faults source.old source.new sink.old sink.new
        (0 < length words.now) ListsAccepted ListsRefused result.status }
    ensures complete { length words.now ≡ 0
        → AnswersUnfailed S.faults K.faults source.old source.new sink.old sink.new
        (IsInputLeft (S.left source.old)) IsProgramSource result.status }
    ensures laws { ListingLaws }

    // A refusal is answered exactly where the status is Refused: that of the source which was read, and its line.
    ensures told { TellsRefused S.left source.old source.new IsToldOf result }
{
    if !words.is_empty() {
        return Answer::unrefused(Status::Usage);
    }
    match read_then(alloc, source, |input| shown_reply(alloc, input)) {
        Ok(reply) => reply.write_to(sink),
        Err(status) => Answer::unrefused(status),
    }
}

/// The reply to a source, whose refusal shows the line that it is at.
fn shown_reply(alloc: Global, source: &[u8]) -> Result<Reply, NoMemory>
    requires { length source.now ≤ most_input }
    ensures lists { IfOk result (ListsAs source.now) }
    ensures shows { IfOk result (ShowsLineOf source.now) }
{
    let reply = reply_to(alloc, source)?;
    reply.showing(alloc, source)
}
