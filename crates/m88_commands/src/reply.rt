//! The reply of a command to what a source gives it.
ghost use Rattle.std.specs.Prelude.{◌≡◌, ◌⊎◌, ℕ, List, IfErr, IfOk, OnErr, false};
ghost use Rattle.m88_base.specs.Reading.{ReadsSource};
ghost use Rattle.m88_base.specs.Reply.{ShowsLineOf};
ghost use Rattle.m88_base.specs.Status.{IsOfReading};
ghost use Rattle.m88_commands.specs.Command.{IsFit, command_of, kind_of, reads_input, shows_boards};
ghost use Rattle.m88_commands.specs.Inputs.{GivesInput, kept_text};
ghost use Rattle.m88_commands.specs.Inside.Inputs.{IsKeptAs, IsMadeOf};
ghost use Rattle.m88_commands.specs.Inside.Reply.{AnswersShown};
ghost use Rattle.m88_commands.specs.Reply.{Replies, WatchesReply};
ghost use Rattle.m88_commands.specs.Status.{ShowsNothing};
ghost use Rattle.m88_commands.specs.Watching.{FrontOfAccepted};

use crate::commands::{Command, reply_to};
use crate::input::{Input, input_of};
use m88_base::{NoMemory, Reply, Source, Status};
use m88_board::Watch;
use std::alloc::Global;

/// The reply of a command to what a source gives it, or why there is none: the status with which the program ends then.
/// A refusal shows the line of the input that it is at, where the input is kept as a text.
pub fn reply_from<S: Source, W: Watch>(
    alloc: Global,
    command: Command,
    source: &mut S,
    watch: &mut W,
) -> Result<Reply, Status>
    requires { IsFit command }
    ensures ok { IfOk result (λ reply. (input : List ℕ)
        × GivesInput (command_of command.entry) (S.left source.old) (S.left source.new) input
        × Replies (command_of command.entry) input reply
        × WatchesReply W.seen watch.old watch.new (command_of command.entry) input reply
        × ShowsLineOf (kept_text (kind_of (command_of command.entry)) input) reply) }
    ensures unread { reads_input (command_of command.entry) ≡ false → source.new ≡ source.old }
    ensures unshown_by { shows_boards (command_of command.entry) ≡ false → watch.new ≡ watch.old }
    ensures reading { ReadsSource Status.SourceFault Status.TooLong S.left S.calls S.faults
        source.old source.new result }
    ensures status { IfErr result IsOfReading }
    ensures memory { IfErr result (λ status. reads_input (command_of command.entry) ≡ false
        → status ≡ Status.Memory) }
    ensures unshown { IfErr result (λ status. ShowsNothing status → watch.new ≡ watch.old) }
    ensures front { OnErr result ((watch.new ≡ watch.old) ⊎ ((input : List ℕ)
        × GivesInput (command_of command.entry) (S.left source.old) (S.left source.new) input
        × FrontOfAccepted (command_of command.entry) input (W.seen watch.old) (W.seen watch.new))) }
{
    let input = input_of(alloc, &command, source)?;
    let reply = shown_reply(alloc, command, &input, watch)?;
    Ok(reply)
}

/// The reply of a command to its whole input, whose refusal shows the line of what is kept of that.
fn shown_reply<W: Watch>(
    alloc: Global,
    command: Command,
    input: &Input,
    watch: &mut W,
) -> Result<Reply, NoMemory>
    requires fit { IsFit command }
    requires kept { IsKeptAs (kind_of (command_of command)) input.now }
    ensures answers { (bytes : List ℕ) → IsMadeOf input.now bytes
        → AnswersShown W.seen watch.old watch.new (command_of command.entry) bytes result }
    ensures shows { (bytes : List ℕ) → IsMadeOf input.now bytes
        → IfOk result (ShowsLineOf (kept_text (kind_of (command_of command.entry)) bytes)) }
    ensures unshown { shows_boards (command_of command.entry) ≡ false → watch.new ≡ watch.old }
{
    let reply = reply_to(alloc, command, input, watch)?;
    reply.showing(alloc, input.kept())
}
