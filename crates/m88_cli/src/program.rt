//! The top call.
ghost use Rattle.std.specs.Prelude.{◌≡◌, ◌⊎◌, ℕ, List};
ghost use Rattle.m88_base.specs.Filter.{AnswersUnfailed, IsInputLeft, TellsRefused};
ghost use Rattle.m88_base.specs.Words.{texts};
ghost use Rattle.m88_commands.specs.Answer.{Accepts};
ghost use Rattle.m88_commands.specs.Command.{Command as Choice, SpellNoRun, Spells};
ghost use Rattle.m88_commands.specs.Inputs.{GivesInput, left_for};
ghost use Rattle.m88_commands.specs.Laws.{CommandLaws};
ghost use Rattle.m88_commands.specs.Status.{ShowsNothing};
ghost use Rattle.m88_commands.specs.Watching.{FrontOfAccepted};
ghost use Rattle.m88_cli.specs.Calls.{CarriesOut, IsToldBy};

use m88_base::{Answer, Sink, Source, Status};
use m88_board::Watch;
use m88_commands::{reply_from, spelled};
use std::alloc::Global;

/// The whole program between its words, a source, a sink and a watch: the command that the words spell reads
/// the source to its end, its text is written to the sink, and where it shows boards, its board is shown to the
/// watch after each event.
pub fn m88<S: Source, K: Sink, W: Watch>(
    alloc: Global,
    words: &[String],
    source: &mut S,
    sink: &mut K,
    watch: &mut W,
) -> Status
    // Words outside the grammar, exactly: Usage. A command whose input was read to its end and is accepted wrote its text
    // and showed its boards: Done. For `run` the text is the report of the sequential machine over the source, and the
    // boards are those of each event; for `share` the reports are those of each program's own run. An input that is
    // refused is answered by the line that says so: Refused.
    ensures carries_out { CarriesOut S.left S.calls S.faults K.held K.calls K.faults W.seen
        source.old source.new sink.old sink.new watch.old watch.new (texts words.now) result }

    // Where nothing failed, an input that is not too long is answered: Done if it is accepted, Refused if
    // it is not, or Memory.
    ensures complete { (command : Choice) → Spells (texts words.now) command
        → AnswersUnfailed S.faults K.faults source.old source.new sink.old sink.new
        (IsInputLeft (left_for command (S.left source.old))) (Accepts command) result }

    // Without an answer, with a refusal, and by a command that has no run the watch was shown nothing; where
    // memory ran out nothing, or a front of the boards of an input that is accepted.
    ensures unshown { ShowsNothing result ⊎ SpellNoRun (texts words.now) → watch.new ≡ watch.old }
    ensures front { (command : Choice) → Spells (texts words.now) command → result ≡ Status.Memory
        → (watch.new ≡ watch.old) ⊎ ((input : List ℕ)
        × GivesInput command (S.left source.old) (S.left source.new) input
        × FrontOfAccepted command input (W.seen watch.old) (W.seen watch.new)) }

    // Commands have one verdict and one text for each input, and take what others wrote.
    ensures laws { CommandLaws }
{
    answer_command(alloc, words, source, sink, watch).status
}

/// The same program, which also answers where and why an input is refused, and the line there.
pub fn answer_command<S: Source, K: Sink, W: Watch>(
    alloc: Global,
    words: &[String],
    source: &mut S,
    sink: &mut K,
    watch: &mut W,
) -> Answer
    // What `m88` promises of the status.
    ensures carries_out { CarriesOut S.left S.calls S.faults K.held K.calls K.faults W.seen
        source.old source.new sink.old sink.new watch.old watch.new (texts words.now) result.status }
    ensures complete { (command : Choice) → Spells (texts words.now) command
        → AnswersUnfailed S.faults K.faults source.old source.new sink.old sink.new
        (IsInputLeft (left_for command (S.left source.old))) (Accepts command) result.status }
    ensures unshown { ShowsNothing result.status ⊎ SpellNoRun (texts words.now)
        → watch.new ≡ watch.old }
    ensures front { (command : Choice) → Spells (texts words.now) command
        → result.status ≡ Status.Memory → (watch.new ≡ watch.old) ⊎ ((input : List ℕ)
        × GivesInput command (S.left source.old) (S.left source.new) input
        × FrontOfAccepted command input (W.seen watch.old) (W.seen watch.new)) }
    ensures laws { CommandLaws }

    // A refusal is answered exactly where the status is Refused: that of the input which was read, and its line.
    ensures told { TellsRefused S.left source.old source.new (IsToldBy (texts words.now)) result }
{
    let Some(command) = spelled(words) else {
        return Answer::unrefused(Status::Usage);
    };
    match reply_from(alloc, command, source, watch) {
        Ok(reply) => reply.write_to(sink),
        Err(status) => Answer::unrefused(status),
    }
}
