//! The top call.
ghost use Rattle.std.specs.Prelude.{◌≡◌, ◌≤◌, IfOk, None, Some, length};
ghost use Rattle.m88_base.specs.Filter.{AnswersUnfailed, Filters, IsInputLeft, TellsRefused};
ghost use Rattle.m88_base.specs.Reading.{most_input};
ghost use Rattle.m88_base.specs.Reply.{ShowsLineOf};
ghost use Rattle.m88_base.specs.Words.{texts};
ghost use Rattle.m88_supering.specs.Answer.{AsAsked, IsAccepted, IsMade, IsToldBy, IsTurnedDown};
ghost use Rattle.m88_supering.specs.Inside.Replies.{Replies};
ghost use Rattle.m88_supering.specs.Laws.{HandlerLaws};
ghost use Rattle.m88_supering.specs.Request.{IsFit, asked_for};
ghost use Rattle.m88_supering.specs.declared.request.Request.{Request as Asked};

use crate::fault::enter_told;
use crate::request::{Request, asked_for};
use m88_base::{Answer, NoMemory, Reply, Sink, Source, Status, read_then};
use std::alloc::Global;

/// The whole program between its words, a source and a sink. The words are `fault STEPS`: the source gives a data fault,
/// as `m88serve` reads it, with registers, and behind the line `handler` a handler of it. The source is read to its end,
/// and the sink is given how the entry of the handler went, with up to STEPS of its instructions (at most 10,000,000),
/// and what it left; or the line that refuses the input.
pub fn m88super<S: Source, K: Sink>(
    alloc: Global,
    words: &[String],
    source: &mut S,
    sink: &mut K,
) -> Status
    // Words that ask for nothing: Usage. An input that is read to its end and accepted is answered by what is asked for:
    // Done. One that is refused is answered by the line that says so: Refused.
    ensures filters { Filters S.left S.calls S.faults K.held K.calls K.faults source.old source.new sink.old sink.new
        (asked_for (texts words.now) ≡ None)
        (AsAsked (texts words.now) IsMade) (AsAsked (texts words.now) IsTurnedDown) result }

    // Where the words ask for something and nothing failed, an input that is not too long is answered: Done if
    // it is accepted, Refused if it is not, or Memory.
    ensures complete { (request : Asked) → asked_for (texts words.now) ≡ Some request
        → AnswersUnfailed S.faults K.faults source.old source.new sink.old sink.new
        (IsInputLeft (S.left source.old)) (IsAccepted request) result }

    // An input has one verdict and one text. An entry is said to be kept exactly where it was.
    ensures laws { HandlerLaws }
{
    try_handler(alloc, words, source, sink).status
}

/// The same program, which also answers where and why the input is refused, and the line there.
pub fn try_handler<S: Source, K: Sink>(
    alloc: Global,
    words: &[String],
    source: &mut S,
    sink: &mut K,
) -> Answer
    // What `m88super` promises of the status.
    ensures filters { Filters S.left S.calls S.faults K.held K.calls K.faults source.old source.new sink.old sink.new
        (asked_for (texts words.now) ≡ None)
        (AsAsked (texts words.now) IsMade) (AsAsked (texts words.now) IsTurnedDown) result.status }
    ensures complete { (request : Asked) → asked_for (texts words.now) ≡ Some request
        → AnswersUnfailed S.faults K.faults source.old source.new sink.old sink.new
        (IsInputLeft (S.left source.old)) (IsAccepted request) result.status }
    ensures laws { HandlerLaws }

    // A refusal is answered exactly where the status is Refused: that of the input which was read, and its line.
    ensures told { TellsRefused S.left source.old source.new (IsToldBy (texts words.now)) result }
{
    let Some(request) = asked_for(words) else {
        return Answer::unrefused(Status::Usage);
    };
    match read_then(alloc, source, |input| shown_reply(alloc, request, input)) {
        Ok(reply) => reply.write_to(sink),
        Err(status) => Answer::unrefused(status),
    }
}

/// The reply to an input, by what is asked for, whose refusal shows the line that it is at.
fn shown_reply(alloc: Global, request: Request, input: &[u8]) -> Result<Reply, NoMemory>
    requires short { length input.now ≤ most_input }
    requires fit { IsFit request }
    ensures replies { IfOk result (Replies request input.now) }
    ensures shows { IfOk result (ShowsLineOf input.now) }
{
    let reply = reply_to(alloc, request, input)?;
    reply.showing(alloc, input)
}

/// The reply to an input, by what is asked for.
fn reply_to(alloc: Global, request: Request, input: &[u8]) -> Result<Reply, NoMemory>
    requires short { length input.now ≤ most_input }
    requires fit { IsFit request }
    ensures { IfOk result (Replies request input.now) }
{
    match request {
        Request::Fault(steps) => enter_told(alloc, steps, input),
    }
}
