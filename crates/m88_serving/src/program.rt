//! The top call.
ghost use Rattle.std.specs.Prelude.{◌≡◌, ◌<◌, IfOk, length};
ghost use Rattle.m88_base.specs.Filter.{AnswersUnfailed, Filters, IsInputLeft, TellsRefused};
ghost use Rattle.m88_base.specs.Reply.{ShowsLineOf};
ghost use Rattle.m88_serving.specs.Laws.{ServingLaws};
ghost use Rattle.m88_serving.specs.Served.{IsServed, IsToldOf, IsTurnedDown};
ghost use Rattle.m88_serving.specs.Verdict.{IsTakenCase};
ghost use Rattle.m88_serving.specs.Inside.Replies.{RepliesServed};

use crate::reply::reply_to;
use m88_base::{Answer, NoMemory, Reply, Sink, Source, Status, read_then};
use std::alloc::Global;

/// The whole program between its words, of which none are taken, a source and a sink: the source is read to its end,
/// and the sink is given what a handler must come to, or the line that refuses the input.
pub fn m88serve<S: Source, K: Sink>(
    alloc: Global,
    words: &[String],
    source: &mut S,
    sink: &mut K,
) -> Status
    // Any word is one too many: Usage. An input that is read to its end and accepted is answered by what a handler must
    // come to: Done. One that is refused is answered by the line that says so: Refused.
    ensures filters { Filters S.left S.calls S.faults K.held K.calls K.faults source.old source.new sink.old sink.new
        (0 < length words.now) IsServed IsTurnedDown result }

    // Without words, and where nothing failed, an input that is not too long is answered: Done if it is
    // accepted, Refused if it is not, or Memory.
    ensures complete { length words.now ≡ 0
        → AnswersUnfailed S.faults K.faults source.old source.new sink.old sink.new
        (IsInputLeft (S.left source.old)) IsTakenCase result }

    // What a data fault leaves at any moment of a run is accepted, and served so that memory and registers are those of
    // the history.
    ensures laws { ServingLaws }
{
    serve_case(alloc, words, source, sink).status
}

/// The same program, which also answers where and why the input is refused, and the line there.
pub fn serve_case<S: Source, K: Sink>(
    alloc: Global,
    words: &[String],
    source: &mut S,
    sink: &mut K,
) -> Answer
    // What `m88serve` promises of the status.
    ensures filters { Filters S.left S.calls S.faults K.held K.calls K.faults source.old source.new sink.old sink.new
        (0 < length words.now) IsServed IsTurnedDown result.status }
    ensures complete { length words.now ≡ 0
        → AnswersUnfailed S.faults K.faults source.old source.new sink.old sink.new
        (IsInputLeft (S.left source.old)) IsTakenCase result.status }
    ensures laws { ServingLaws }

    // A refusal is answered exactly where the status is Refused: that of the input which was read, and its line.
    ensures told { TellsRefused S.left source.old source.new IsToldOf result }
{
    if !words.is_empty() {
        return Answer::unrefused(Status::Usage);
    }
    match read_then(alloc, source, |input| shown_reply(alloc, input)) {
        Ok(reply) => reply.write_to(sink),
        Err(status) => Answer::unrefused(status),
    }
}

/// The reply to an input, whose refusal shows the line that it is at.
fn shown_reply(alloc: Global, input: &[u8]) -> Result<Reply, NoMemory>
    ensures serves { IfOk result (RepliesServed input.now) }
    ensures shows { IfOk result (ShowsLineOf input.now) }
{
    let reply = reply_to(alloc, input)?;
    reply.showing(alloc, input)
}
