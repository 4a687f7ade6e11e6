//! The monitor: the commands of a script, carried out one after the other on one board.
ghost use Rattle.std.specs.Prelude.{◌≡◌, ◌<◌, ◌≤◌, ◌+◌, ◌++◌, ◌∷◌, [], OnOk, count_by, length};
ghost use Rattle.m88_isa.specs.Address.{word_address};
ghost use Rattle.m88_session.specs.MonitorLines.{breakpoint_line};
ghost use Rattle.m88_session.specs.Settings.{AreBounded, settings_in};
ghost use Rattle.m88_session.specs.Script.{is_break, most_breaks};
ghost use Rattle.m88_session.specs.Running.{GoesAlong};
ghost use Rattle.m88_session.specs.Inside.SessionKept.{Carries, ShowsFront, TellsSession};

use crate::script::MonitorCommand;
use crate::script_lines::MOST_BREAKS;
use crate::settings::Settings;
use arrayvec::ArrayVec;
use m88_base::{Image, NoMemory};
use m88_board::{Board, Walk, Watch};
use showing::{push_all_registers, push_breakpoint, push_pipe, push_words};
use std::alloc::Global;

mod going;
mod showing;
mod tracing;

/// The monitor: a walk along the letters of the run, and the breakpoints, which are byte addresses of words.
#[derive(Drop)]
pub(crate) struct Monitor<'a> {
    walk: Walk<'a>,
    breakpoints: ArrayVec<u32, MOST_BREAKS>,
}

/// What commands write that are carried out in order on a board over the program that an image holds. The board is
/// shown to the watch after each event.
pub fn carry_out<W: Watch>(
    alloc: Global,
    settings: &Settings,
    commands: &[MonitorCommand],
    image: &Image,
    watch: &mut W,
) -> Result<Vec<u8>, NoMemory>
    requires fit { AreBounded settings.now.limit settings.now.absent }
    requires breaks { count_by is_break commands.now ≤ most_breaks }
    ensures { GoesAlong image.now (settings_in settings.now)
        (λ text. TellsSession (settings_in settings.now) commands.now
        (W.seen watch.old) (W.seen watch.new) text.items)
        (ShowsFront (settings_in settings.now) commands.now (W.seen watch.old) (W.seen watch.new))
        result }
{
    let mut board = Board::new(alloc, image, &settings.absent, settings.limit, settings.mxm)?;
    let mut monitor = Monitor {
        walk: Walk::new(&mut board, &settings.schedule),
        breakpoints: ArrayVec::new(),
    };
    let mut text = Vec::new(alloc);
    for command in commands {
        monitor.carry(command, watch, &mut text)?;
    }
    Ok(text)
}

impl<'a> Monitor<'a> {
    /// Carries one command out, and appends what it writes.
    fn carry<W: Watch>(
        &mut self,
        command: &MonitorCommand,
        watch: &mut W,
        text: &mut Vec<u8>,
    ) -> Result<(), NoMemory>
        requires { length self.old.breakpoints.items + count_by is_break (command.now ∷ [])
            ≤ most_breaks }
        ensures { Carries command.now (W.seen watch.old) (W.seen watch.new) self.old self.new
            text.old.items text.new.items result }
    {
        match command {
            MonitorCommand::Step(count) => self.step(*count, watch, text),
            MonitorCommand::Go => self.go(watch, text),
            MonitorCommand::Break(address) => self.set_breakpoint(*address, text),
            MonitorCommand::Regs => push_all_registers(text, self.walk.board()),
            MonitorCommand::Pipe => push_pipe(text, self.walk.board()),
            MonitorCommand::Memory { address, count } => {
                push_words(text, self.walk.board(), *address, *count)
            }
            MonitorCommand::Drain => self.drain(watch, text),
            MonitorCommand::Trace(count) => self.trace(*count, watch, text),
        }
    }

    /// `break`: sets a breakpoint at the word of a byte address, and tells it.
    fn set_breakpoint(&mut self, address: u32, text: &mut Vec<u8>) -> Result<(), NoMemory>
        requires { length self.old.breakpoints.items < most_breaks }
        ensures walk { self.new.walk ≡ self.old.walk }
        ensures set { self.new.breakpoints.items
            ≡ self.old.breakpoints.items ++ word_address address ∷ [] }
        ensures text { OnOk result (text.new.items
            ≡ text.old.items ++ breakpoint_line (word_address address)) }
    {
        let word = address / 4 * 4;
        self.breakpoints.push(word);
        push_breakpoint(text, word)?;
        Ok(())
    }
}
