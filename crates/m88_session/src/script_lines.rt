//! Which lines a script may have.
ghost use Rattle.std.specs.Prelude.{ℕ, ◌≡◌, ◌<◌, ◌∷◌, ◌++◌, [], List, count_by, false, true};
ghost use Rattle.m88_session.specs.Script.{AreScriptLines, is_break};
ghost use Rattle.m88_session.specs.Inside.ScriptWords.{has_room};
ghost use Rattle.m88_session.specs.declared.script.MonitorCommand.{MonitorCommand as CommandValue};

use crate::script::MonitorCommand;
use crate::script_line::command_in;
use arrayvec::ArrayVec;

/// The most commands of a script.
pub const MOST_COMMANDS: usize = 64;

/// The most of them that set a breakpoint.
pub const MOST_BREAKS: usize = 16;

/// Whether the lines of a script go on with one line more. Its command is added then.
pub fn take_line(commands: &mut ArrayVec<MonitorCommand, MOST_COMMANDS>, line: &[u8]) -> bool
    ensures goes_on { result ≡ true → (lines : List (List ℕ))
        → AreScriptLines lines commands.old.items
        → AreScriptLines (lines ++ line.now ∷ []) commands.new.items }
    ensures stops { result ≡ false → (lines : List (List ℕ))
        → AreScriptLines lines commands.old.items
        → (others : List CommandValue) → ¬ AreScriptLines (lines ++ line.now ∷ []) others }
{
    if line.is_empty() {
        return true;
    }
    let Some(command) = command_in(line) else {
        return false;
    };
    if !has_room(commands.as_slice(), command) {
        return false;
    }
    commands.push(command);
    true
}

/// Whether there is room for a command behind others.
fn has_room(commands: &[MonitorCommand], command: MonitorCommand) -> bool
    ensures { result ≡ has_room commands.now command }
{
    commands.len() < MOST_COMMANDS && (!is_break(&command) || break_count(commands) < MOST_BREAKS)
}

/// How many commands set a breakpoint.
fn break_count(commands: &[MonitorCommand]) -> usize
    ensures { result ≡ count_by is_break commands.now }
{
    commands.iter().filter(|c| is_break(c)).count()
}

/// Whether a command sets a breakpoint.
fn is_break(command: &MonitorCommand) -> bool
    ensures { result ≡ is_break command.now }
{
    matches!(command, MonitorCommand::Break(_))
}
