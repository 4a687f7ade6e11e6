//! The script of the monitor.
ghost use Rattle.std.specs.Prelude.{◌≤◌, IfErr, IfOk, length};
ghost use Rattle.m88_base.specs.Lines.{lines_of};
ghost use Rattle.m88_base.specs.Reading.{most_input};
ghost use Rattle.m88_session.specs.Script.{AreScriptLines, HasNoScript, IsScript, StopsScript};

use crate::script_lines::{MOST_COMMANDS, take_line};
use arrayvec::ArrayVec;
use m88_base::{first_line, parted_at};

/// A command of a script.
#[derive(Clone, Copy, PartialEq, Eq, Debug)]
pub enum MonitorCommand {
    /// That many events, 1 to 1,000,000, or fewer where the run is over before.
    Step(u32),
    /// Events until the run is over or stands at a breakpoint.
    Go,
    /// A breakpoint at the word of this address.
    Break(u32),
    /// The registers and the carry.
    Regs,
    /// The words that a fault now would leave.
    Pipe,
    /// That many words of memory, 1 to 1,024, from the word of this address on.
    Memory { address: u32, count: u32 },
    /// Events `r` until nothing is pending.
    Drain,
    /// As `Step`, told event by event.
    Trace(u32),
}

impl Default for MonitorCommand {
    /// What stands in a place of a script that isn't used.
    fn default() -> MonitorCommand {
        MonitorCommand::Go
    }
}

/// A script, and the source behind it.
#[derive(Debug, Drop)]
pub struct Script<'a> {
    /// The commands in their order.
    pub commands: ArrayVec<MonitorCommand, MOST_COMMANDS>,
    /// The number of lines before the source; the last of them is the line `source`.
    pub lines: u32,
    /// The source.
    pub source: &'a [u8],
}

/// The line, from 1, at which an input has no script.
#[derive(Clone, Copy, PartialEq, Eq, Debug)]
pub struct ScriptFault {
    pub line: u32,
}

/// The script of an input and the source behind it, or the first line that is no command, a 65th command or a 17th
/// breakpoint; where no line `source` comes, the line behind the last.
pub fn read_script(input: &[u8]) -> Result<Script<'_>, ScriptFault>
    requires { length input.now ≤ most_input }
    ensures script { IfOk result (λ s. IsScript input.now s.commands.items s.lines s.source.now) }
    ensures short { IfOk result (λ s. length s.source.now ≤ length input.now) }
    ensures fault { IfErr result (λ fault. HasNoScript input.now fault.line) }
{
    match parted_at(input, b"source") {
        Ok(parted) => match commands_in(parted.before) {
            Ok(commands) => Ok(Script {
                commands,
                lines: parted.lines,
                source: parted.behind,
            }),
            Err(fault) => Err(fault),
        },
        Err(unparted) => match commands_in(input) {
            Ok(_) => Err(ScriptFault {
                line: unparted.lines + 1,
            }),
            Err(fault) => Err(fault),
        },
    }
}

/// The commands that the lines of a text write, or the first line by which they are none of a script's.
fn commands_in(text: &[u8]) -> Result<ArrayVec<MonitorCommand, MOST_COMMANDS>, ScriptFault>
    requires { length text.now ≤ most_input }
    ensures found { IfOk result (λ commands. AreScriptLines (lines_of text.now) commands.items) }
    ensures fault { IfErr result (λ fault. StopsScript (lines_of text.now) fault.line) }
{
    let mut commands = ArrayVec::new();
    let mut rest = text;
    let mut passed = 0;
    while !rest.is_empty() {
        let (line, behind) = first_line(rest);
        passed += 1;
        if !take_line(&mut commands, line) {
            return Err(ScriptFault { line: passed });
        }
        rest = behind;
    }
    Ok(commands)
}
