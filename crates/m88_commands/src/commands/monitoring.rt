//! `mon`: a session with the monitor by a script, over the source behind it.
ghost use Rattle.std.specs.Prelude.{◌≤◌, ◌∷◌, codes, length};
ghost use Rattle.m88_base.specs.Words.{texts};
ghost use Rattle.m88_session.specs.Settings.{AreBounded, settings_in};
ghost use Rattle.m88_commands.specs.Command.{IsFit, Spells, command_of, mon};
ghost use Rattle.m88_commands.specs.Inside.Reading.{ReadsFit};
ghost use Rattle.m88_commands.specs.Inside.Reply.{AnswersShown};
ghost use Rattle.m88_commands.specs.Limits.{most_input};

use crate::commands::Command;
use crate::grammar::opening;
use crate::limits::SESSION_LIMIT;
use m88_base::{NoMemory, Reply, accept, refuse};
use m88_board::Watch;
use m88_session::{Settings, run_session};
use std::alloc::Global;

/// The session that the words after `mon` ask for.
pub fn session_command<'a>(words: &'a [String]) -> Option<Command<'a>>
    ensures { ReadsFit (Spells (codes "mon" ∷ texts words.now)) command_of IsFit result }
{
    let settings = opening(SESSION_LIMIT, words)?;
    Some(Command::Mon {
        absent: settings.absent,
        schedule: settings.schedule,
        mxm: settings.mxm,
    })
}

/// The reply of `mon` to its input.
pub fn run_monitor<W: Watch>(
    alloc: Global,
    settings: &Settings,
    input: &[u8],
    watch: &mut W,
) -> Result<Reply, NoMemory>
    requires size { length input.now ≤ most_input }
    requires fit { AreBounded settings.now.limit settings.now.absent }
    ensures { AnswersShown W.seen watch.old watch.new (mon (settings_in settings.now)) input.now
        result }
{
    match run_session(alloc, settings, input, watch)? {
        Ok(text) => Ok(accept(text)),
        Err(refusal) => refuse(alloc, &refusal),
    }
}
