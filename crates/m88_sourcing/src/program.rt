//! The top call.
ghost use Rattle.std.specs.Prelude.{◌≡◌, ℕ, IfErr, IfOk, List};
ghost use Rattle.m88_base.specs.Filter.{AnswersUnfailed, Filters, IsInputLeft, TellsRefused};
ghost use Rattle.m88_base.specs.Outside.{GivesAll};
ghost use Rattle.m88_base.specs.Reading.{ReadsSource};
ghost use Rattle.m88_base.specs.Status.{IsOfReading};
ghost use Rattle.m88_base.specs.Words.{texts};
ghost use Rattle.m88_sourcing.specs.Answer.{AsAsked, AskNothing, IsToldOf, SourcesAccepted, SourcesRefused};
ghost use Rattle.m88_sourcing.specs.Inputs.{IsAcceptedIn};
ghost use Rattle.m88_sourcing.specs.Inside.Asked.{IsKept};
ghost use Rattle.m88_sourcing.specs.Inside.Replies.{IsInputRead, SourcesAs};
ghost use Rattle.m88_sourcing.specs.Laws.{SourcingLaws};
ghost use Rattle.m88_sourcing.specs.Request.{Asks, Request as Asked};

use crate::input::read_input;
use crate::request::{Request, asked_for};
use crate::said::said_by;
use crate::source::source_text;
use m88_base::{Answer, Image, NoMemory, Refusal, Reply, Sink, Source, Status, accept, refuse};
use std::alloc::Global;

/// The whole program between its words, a source and a sink. The words are hints where the source gives S-records, and
/// `at ADDRESS` and hints where it gives the bytes of a binary that stand from ADDRESS on. A hint is `PLACES`, at which
/// code begins besides the start; `fixed PLACES`, whose words stay where they are too; `vectors A N`, so N vectors of
/// eight bytes from A on; or once, behind `at`, `start A`, where a binary starts that doesn't at ADDRESS. PLACES are `A`,
/// `A-B` by words or `A-B/STEP`. Numbers are those of the assembly language. At most 4,096 hints name at most 65,536
/// addresses. The source is read to its end, and the sink is given the source of its image, or the line that refuses it.
pub fn m88source<S: Source, K: Sink>(
    alloc: Global,
    words: &[String],
    source: &mut S,
    sink: &mut K,
) -> Status
    // Words that ask for nothing: Usage. An input that is read to its end and accepted is answered by its source: Done.
    // One that is refused is answered by the line that says so: Refused.
    ensures filters { Filters S.left S.calls S.faults K.held K.calls K.faults source.old source.new sink.old sink.new
        (AskNothing (texts words.now)) (AsAsked (texts words.now) SourcesAccepted)
        (AsAsked (texts words.now) SourcesRefused) result }

    // Where the words ask for something and nothing failed, an input that is not too long is answered: Done if
    // it is accepted, Refused if it is not, or Memory.
    ensures complete { (request : Asked) → Asks (texts words.now) request
        → AnswersUnfailed S.faults K.faults source.old source.new sink.old sink.new
        (IsInputLeft (S.left source.old)) (IsAcceptedIn request.binary) result }

    // Words ask for one thing.
    ensures one_request { (a b : Asked) → Asks (texts words.now) a
        → Asks (texts words.now) b → a ≡ b }

    // An input has one verdict and one text. `build` makes the image of every source again, every branch that is
    // code names its target, and one more statement of four bytes behind a word of code moves code alone.
    ensures laws { SourcingLaws }
{
    source_input(alloc, words, source, sink).status
}

/// The same program, which also answers where and why the input is refused.
pub fn source_input<S: Source, K: Sink>(
    alloc: Global,
    words: &[String],
    source: &mut S,
    sink: &mut K,
) -> Answer
    // What `m88source` promises of the status.
    ensures filters { Filters S.left S.calls S.faults K.held K.calls K.faults source.old source.new sink.old sink.new
        (AskNothing (texts words.now)) (AsAsked (texts words.now) SourcesAccepted)
        (AsAsked (texts words.now) SourcesRefused) result.status }
    ensures complete { (request : Asked) → Asks (texts words.now) request
        → AnswersUnfailed S.faults K.faults source.old source.new sink.old sink.new
        (IsInputLeft (S.left source.old)) (IsAcceptedIn request.binary) result.status }
    ensures one_request { (a b : Asked) → Asks (texts words.now) a
        → Asks (texts words.now) b → a ≡ b }
    ensures laws { SourcingLaws }

    // A refusal is answered exactly where the status is Refused: that of the input which was read.
    ensures told { TellsRefused S.left source.old source.new (IsToldOf (texts words.now)) result }
{
    let Some(request) = asked_for(words) else {
        return Answer::unrefused(Status::Usage);
    };
    match reply_from(alloc, &request, source) {
        Ok(reply) => reply.write_to(sink),
        Err(status) => Answer::unrefused(status),
    }
}

/// The reply to what was read, or why there is none.
fn reply_to(
    alloc: Global,
    request: &Request,
    input: &Result<Image, Refusal>,
) -> Result<Reply, NoMemory>
    ensures { (asked : Asked) (bytes : List ℕ) → IsKept request.now asked
        → IsInputRead asked.binary bytes input.now → IfOk result (SourcesAs asked bytes) }
{
    match input {
        Ok(image) => {
            let said = said_by(alloc, request.words)?;
            let text = source_text(alloc, image, &said)?;
            Ok(accept(text))
        }
        Err(refusal) => refuse(alloc, refusal),
    }
}

/// The reply to what a source gives, or why there is none.
fn reply_from<S: Source>(alloc: Global, request: &Request, source: &mut S) -> Result<Reply, Status>
    ensures ok { IfOk result (λ reply. (bytes : List ℕ)
        × GivesAll (S.left source.old) (S.left source.new) bytes
        × ((asked : Asked) → IsKept request.now asked → SourcesAs asked bytes reply)) }
    ensures reading { ReadsSource Status.SourceFault Status.TooLong S.left S.calls S.faults
        source.old source.new result }
    ensures status { IfErr result IsOfReading }
{
    let input = read_input(alloc, request, source)?;
    let reply = reply_to(alloc, request, &input)?;
    Ok(reply)
}
